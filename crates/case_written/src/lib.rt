// A case's chart written back: its tables, as numbers, are lent to the writer with room for the file and with other rooms, and in part.
#![tactic(auto)]

ghost use Rattle.std.specs.Prelude.{◌≡◌, ◌-◌, length, take};

use std::io;
use std::io::Write;

// A chart's tables as they are lent to the writer.
#[derive(Clone, Copy)]
struct Tables<'a> {
    vertices: &'a [i64],
    edges: &'a [i64],
    faces: &'a [i64],
}

impl<'a> Tables<'a> {
    // The tables without so many numbers at their ends.
    fn without(self, vertices: usize, edges: usize, faces: usize) -> Tables<'a> {
        Tables {
            vertices: without(self.vertices, vertices),
            edges: without(self.edges, edges),
            faces: without(self.faces, faces),
        }
    }
}

fn without(numbers: &[i64], lacking: usize) -> &[i64]
    ensures { result.now ≡ take (length numbers.now - lacking) numbers.now }
{
    &numbers[..numbers.len().saturating_sub(lacking)]
}

// The lines of a chart; one that 3, 4 or 5 refuses has no tables, and no lines. The tables are large: inlined they would be held while the rest of a
// case is answered.
#[inline(never)]
pub fn lines<W: Write>(out: &mut W, chart: &[u8]) -> io::Result<()> {
    let Ok(counts) = reading::read_head(chart) else {
        return Ok(());
    };
    let mut vertices = [0; chart::VERTEX_NUMBERS];
    let mut edges = [0; chart::EDGE_NUMBERS];
    let mut faces = [0; chart::FACES];
    let read = reading::read_body(
        chart,
        counts.vertices,
        counts.half_edges,
        counts.faces,
        &mut vertices,
        &mut edges,
        &mut faces,
    );
    if read.is_err() {
        return Ok(());
    }
    let tables = Tables {
        vertices: &vertices[..4 * counts.vertices],
        edges: &edges[..4 * counts.half_edges],
        faces: &faces[..counts.faces],
    };
    table_lines(out, chart, tables)
}

// A buffer of the file's length, one byte less, eight more; then of the file's length with tables that lack their last number or row.
fn table_lines<W: Write>(out: &mut W, chart: &[u8], tables: Tables<'_>) -> io::Result<()> {
    let size = chart.len();
    write!(out, "written")?;
    answer(out, chart, tables, size)?;
    write!(out, "\nshort")?;
    answer(out, chart, tables, size.saturating_sub(1))?;
    write!(out, "\nlonger")?;
    answer(out, chart, tables, size.saturating_add(8))?;
    write!(out, "\nuneven")?;
    answer(out, chart, tables.without(1, 0, 0), size)?;
    answer(out, chart, tables.without(0, 1, 0), size)?;
    write!(out, "\nless")?;
    answer(out, chart, tables.without(4, 0, 0), size)?;
    answer(out, chart, tables.without(0, 4, 0), size)?;
    answer(out, chart, tables.without(0, 0, 1), size)?;
    writeln!(out)
}

// The writer's answer in a buffer of so many zeros, within a line. There are 65,536 of them, and the largest chart has 31,465 bytes:
// the writer lays its text into lent room.
fn answer<W: Write>(out: &mut W, chart: &[u8], tables: Tables<'_>, room: usize) -> io::Result<()> {
    let mut zeros = [0u8; 65536];
    let n = room.min(zeros.len());
    let space = &mut zeros[..n];
    let length = match estivolh::write_chart(tables.vertices, tables.edges, tables.faces, space) {
        Ok(m) => {
            let text = chart.get(..m as usize);
            answer_lines::written(out, m, text.is_some_and(|text| space.starts_with(text)))?;
            m as usize
        }
        Err(refusal) => {
            answer_lines::unwritten(out, refusal)?;
            0
        }
    };
    // past the text no byte may be other than it was lent
    if space.iter().skip(length).any(|&b| b != 0) {
        answer_lines::changed(out)?;
    }
    Ok(())
}
