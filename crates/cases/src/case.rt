// The answers to one case, in the oracle's order.
ghost use Rattle.cases.specs.Stop.{HandedOn};

use case_files::Texts;
use case_text::LIMIT;
use case_text::stop::Stop;
use std::io;
use std::io::Write;

// 01's program prints no more of any log.
const PRINTED: usize = 9216;

// Prints the lines of a case.
pub fn print<W: Write>(out: &mut W, texts: &Texts) -> io::Result<()> {
    match answers(out, texts) {
        Ok(()) => Ok(()),
        Err(stop) => print_stop(out, stop),
    }
}

// Prints the line that takes the place of the answers to what is broken.
pub fn print_stop<W: Write>(out: &mut W, stop: Stop) -> io::Result<()>
    ensures { HandedOn stop result }
{
    match stop {
        Stop::Io(e) => Err(e),
        Stop::Memory(e) => Err(io::Error::from(e)),
        broken => writeln!(out, "{broken}"),
    }
}

// A text that is broken ends its case.
fn answers<W: Write>(out: &mut W, texts: &Texts) -> Result<(), Stop> {
    let found = estivolh::check(&texts.chart);
    answer_lines::verdict(out, found)?;
    case_written::lines(out, &texts.chart)?;
    case_rooms::rooms(out, &texts.chart, &texts.rooms)?;
    if found.is_ok() {
        case_queries::loads(out, &texts.chart, &texts.queries)?;
    }
    case_batches::batches(out, &texts.chart, &texts.batches)?;
    run(out, &texts.chart, &texts.log)
}

// What 01's program prints for a log that is not empty.
fn run<W: Write>(out: &mut W, chart: &[u8], log: &[u8]) -> Result<(), Stop> {
    if log.is_empty() {
        return Ok(());
    }
    if LIMIT <= log.len() {
        return Err(Stop::Log);
    }
    // the most that is printed is known, and `program` lays it into lent room
    let mut text = [0u8; PRINTED];
    let n = program::print(chart, log.len(), log, &mut text);
    out.write_all(&text[..n])?;
    Ok(())
}
