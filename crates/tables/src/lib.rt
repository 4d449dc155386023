// Tables of chart text: lines of fields, each line with its line end.
#![tactic(auto)]

ghost use Rattle.std.specs.Prelude.{is_some, ◌≡◌, ◌+◌, ◌*◌, ◌≤◌, ◌<◌, length, drop};
ghost use Rattle.text.specs.Field.{field_width};
ghost use Rattle.tables.specs.Starts.{Starts};
ghost use Rattle.tables.specs.Table.{fields_max, lines_max, line_of, table_of, given, line_bytes};

use text::COLUMNS;

// Where the fields of a line start.
const STARTS: [usize; 5] = [0, 8, 16, 24, 32];

// The table of starts, made once for all lines.
fn field_starts() -> [usize; 5]
    ensures { Starts result }
{
    STARTS
}

// Where field `j` starts.
fn start(starts: &[usize; 5], j: usize) -> usize
    requires starts { Starts starts.now }
    requires j_bound { j < fields_max }
    ensures { result ≡ field_width * j }
{
    starts[j]
}

// One line from `at`: a field for each element of `row`, then the line end. None where it is malformed; else `row` has its numbers.
// By answers, what the check does not find: a field or a line more, of texts by `drop` and tables by `take`.
fn fields(starts: &[usize; 5], text: &[u8], at: usize, row: &mut [i64]) -> Option<()>
    requires starts { Starts starts.now }
    requires row_len_bound { (length row.old ≤ fields_max) × (at + field_width * length row.old < length text.now) }
    ensures { line_of (length row.old) (drop at text.now) ≡ given (is_some result) row.new }
{
    for (j, cell) in row.iter_mut().enumerate() {
        let a = at + start(starts, j);
        *cell = text::read_field(&text[a..a + COLUMNS])?;
    }
    (text[at + COLUMNS * row.len()] == b'\n').then_some(())
}

// `n` lines of `w` fields from `at`. None where they are malformed; else `cells` has their numbers, line after line.
// The numbers go into a slice that the caller lends: a library has no heap. By number: `chunks_exact` would owe that w is not 0.
// By answers, what the check does not find: a field or a line more, of texts by `drop` and tables by `take`.
pub fn table(text: &[u8], at: usize, w: usize, n: usize, cells: &mut [i64]) -> Option<()>
    requires w_bound { (w ≤ fields_max) × (n ≤ lines_max) }
    requires n_in_bounds { (at + line_bytes w * n ≤ length text.now) × (length cells.old ≡ w * n) }
    ensures { table_of w n (drop at text.now) ≡ given (is_some result) cells.new }
{
    let starts = field_starts();
    let bytes = COLUMNS * w + 1;
    for i in 0..n {
        let from = w * i;
        fields(&starts, text, at + bytes * i, &mut cells[from..from + w])?;
    }
    Some(())
}

// One line from `at`, of as many fields as `row` has elements: a table of one line, so that `fields` has one caller and is compiled into its loop.
// None where it is malformed; else `row` has its numbers.
#[tactic(auto, using(crate::proofs::Laws::lines))]
pub fn line(text: &[u8], at: usize, row: &mut [i64]) -> Option<()>
    requires { (length row.old ≤ fields_max) × (at + field_width * length row.old < length text.now) }
    ensures { line_of (length row.old) (drop at text.now) ≡ given (is_some result) row.new }
{
    let w = row.len();
    table(text, at, w, 1, row)
}
