// Chart text put into a buffer: a line of fields, a table of lines, and the text of three tables.
#![tactic(auto)]

ghost use Rattle.std.specs.Prelude.{◌≡◌, ◌+◌, ◌*◌, ◌≤◌, length};
ghost use Rattle.tables.specs.Table.{fields_max, line_bytes};
ghost use Rattle.tables.specs.Text.{line_text, table_text};
ghost use Rattle.chart.specs.Tables.{rows};
ghost use Rattle.ranges.specs.Passed.{Counted};
ghost use Rattle.reading.specs.Reading.{file_length};
ghost use Rattle.reading.specs.Text.{chart_text};
ghost use Rattle.columns.specs.Laid.{laid};

use text::COLUMNS;

// One line from `at`: a field for each number, then the line end. Here and below the answer is where what was put ends.
#[tactic(auto, using(crate::proofs::Laws::line))]
fn put_line(row: &[i64], out: &mut [u8], at: usize) -> usize
    requires { at + line_bytes (length row.now) ≤ length out.old }
    ensures { (result ≡ at + line_bytes (length row.now)) × (out.new ≡ laid out.old at (line_text row.now)) }
{
    for (j, z) in row.iter().enumerate() {
        columns::put_field(out, at + COLUMNS * j, COLUMNS, *z);
    }
    columns::put_line_end(out, at + COLUMNS * row.len())
}

// `n` lines of `w` numbers from `at`. A line's place in the text is told by its number, so this goes over the numbers and not over `chunks_exact`.
// `n` stands beside the slice: the caller has it from its counts, and a division of the length by `w` would owe that `w` is not 0.
#[tactic(auto, using(crate::proofs::Laws::table))]
fn put_table(cells: &[i64], w: usize, n: usize, out: &mut [u8], at: usize) -> usize
    requires w_bound { w ≤ fields_max }
    requires room { (length cells.now ≡ w * n) × (at + line_bytes w * n ≤ length out.old) }
    ensures { (result ≡ at + line_bytes w * n) × (out.new ≡ laid out.old at (table_text w n cells.now)) }
{
    let bytes = COLUMNS * w + 1;
    for i in 0..n {
        let from = w * i;
        put_line(&cells[from..from + w], out, at + bytes * i);
    }
    at + bytes * n
}

// The text of three tables: line 1 with the counts, then a line for each vertex, half-edge and face.
// Three slices of signed numbers, as C lends them and the file has them: no `Chart`.
#[tactic(auto, using(crate::proofs::Laws::chart))]
pub fn put_chart(vertices: &[i64], edges: &[i64], faces: &[i64], out: &mut [u8]) -> usize
    requires counted { Counted (rows vertices.now) (rows edges.now) (length faces.now) }
    requires whole_rows { (length vertices.now ≡ 4 * rows vertices.now) × (length edges.now ≡ 4 * rows edges.now) }
    requires room { file_length (rows vertices.now) (rows edges.now) (length faces.now) ≤ length out.old }
    ensures { (result ≡ length (chart_text vertices.now edges.now faces.now)) × (out.new ≡ laid out.old 0 (chart_text vertices.now edges.now faces.now)) }
{
    let v = vertices.len() / 4;
    let e = edges.len() / 4;
    let f = faces.len();
    let counts = [v as i64, e as i64, f as i64];
    let a = put_line(&counts, out, 0);
    let b = put_table(vertices, 4, v, out, a);
    let c = put_table(edges, 4, e, out, b);
    put_table(faces, 1, f, out, c)
}
