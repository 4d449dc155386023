// The gradients of a case's chart, and its queries.
#![tactic(auto)]

use case_text::LIMIT;
use case_text::lines::Lines;
use case_text::queries::read_query;
use case_text::stop::Stop;
use refusal::Refusal;
use std::io;
use std::io::Write;

// One more than the vertices of the largest chart.
const VERTICES: u64 = 129;

// As long a list as any chart has: the calls write into lent room, and the most is known.
const LONGEST: usize = 756;

// Gradients and queries of a chart that is not refused.
pub fn loads<W: Write>(out: &mut W, chart: &[u8], text: &[u8]) -> Result<(), Stop> {
    gradients(out, chart)?;
    queries(out, chart, text)
}

// The gradients of the vertices, up to the first number that is none's: 12 is no line, and any other refusal is one that the oracle never
// prints.
fn gradients<W: Write>(out: &mut W, chart: &[u8]) -> io::Result<()> {
    for vertex in 0..VERTICES {
        match estivolh::estimate_gradient(chart, vertex) {
            Ok(slope) => answer_lines::gradient(out, vertex, slope)?,
            Err(Refusal::Unknown) => break,
            Err(refusal) => return answer_lines::refused_gradient(out, vertex, refusal),
        }
    }
    Ok(())
}

// Answers the queries, up to the first line that is none.
fn queries<W: Write>(out: &mut W, chart: &[u8], text: &[u8]) -> Result<(), Stop> {
    if LIMIT <= text.len() {
        return Err(Stop::Queries);
    }
    for line in Lines(text) {
        let (x, y) = line.and_then(read_query).ok_or(Stop::Queries)?;
        answer(out, chart, x, y)?;
    }
    Ok(())
}

// The lines of one query.
fn answer<W: Write>(out: &mut W, chart: &[u8], x: i64, y: i64) -> io::Result<()> {
    answer_lines::query(out, x, y)?;
    answer_lines::location(out, estivolh::locate(chart, x, y))?;
    answer_lines::barycentric(out, estivolh::barycentric_weights(chart, x, y))?;
    let mut list = [0u64; LONGEST];
    let found = estivolh::natural_neighbor_edges(chart, x, y, &mut list);
    answer_lines::edges(out, found, &list)?;
    let mut shares = [0.0; LONGEST];
    let found = estivolh::natural_neighbor_weights(chart, x, y, &mut list, &mut shares);
    answer_lines::natural_weights(out, found, &list, &shares)?;
    for method in 1..=3 {
        value(out, chart, method, x, y)?;
    }
    Ok(())
}

// The value, and what it costs. The public call takes a method's number.
fn value<W: Write>(out: &mut W, chart: &[u8], method: i64, x: i64, y: i64) -> io::Result<()> {
    match estivolh::interpolate(chart, method, x, y) {
        Ok(v) => answer_lines::value(out, method, v, estivolh::charge(v)),
        Err(refusal) => answer_lines::refused_value(out, method, refusal),
    }
}
