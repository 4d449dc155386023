// The bytes of a chart read and checked: refusals 3, 5, 4 on its head, then 3, 5 and 6 to 11 on its body.
#![tactic(auto)]

ghost use Rattle.std.specs.Prelude.{cond, ◌≡◌, ◌+◌, ◌*◌, ◌≤◌, is_ok, length, take, drop};
ghost use Rattle.refusal.specs.Number.{refusal_of};
ghost use Rattle.tables.specs.Table.{fields_max, lines_max, line_bytes, table_of, given};
ghost use Rattle.chart.specs.Limits.{most_vertices, most_half_edges, most_faces};
ghost use Rattle.checks.specs.Checks.{told};
ghost use Rattle.reading.specs.Reading.{counts_of, head_says, head_of, file_length, body_of, said_body, load_of};

use ranges::Counts;
use refusal::Refusal;

// How many bytes a line has: the first one (`head_length`), a vertex's or half-edge's, a face's.
const HEAD_BYTES: usize = 25;

const ROW_BYTES: usize = 33;

const FACE_BYTES: usize = 9;

// 4, or the counts. A negative one goes in as 0, which 4 refuses too.
#[tactic(auto, using(crate::proofs::Laws::heads))]
fn counts(v: i64, e: i64, f: i64) -> Result<Counts, Refusal>
    ensures { head_says result ≡ counts_of v e f }
{
    Counts::new(
        chart::to_unsigned(v),
        chart::to_unsigned(e),
        chart::to_unsigned(f),
    )
}

// 3 where there is no whole first line, 5 where it is malformed, 4, or the counts.
#[tactic(auto, using(crate::proofs::Laws::heads), unfolding(crate::specs::Reading::head_of))]
pub fn read_head(text: &[u8]) -> Result<Counts, Refusal>
    ensures { head_says result ≡ head_of text.now }
{
    if text.len() < HEAD_BYTES {
        return Err(Refusal::Length);
    }
    let mut row = [0i64; 3];
    tables::line(text, 0, &mut row).ok_or(Refusal::Field)?;
    let [v, e, f] = row;
    counts(v, e, f)
}

// How many bytes the text of a chart of so many vertices, half-edges and faces has.
pub fn text_length(v: usize, e: usize, f: usize) -> usize
    requires { (v ≤ most_vertices) × (e ≤ most_half_edges) × (f ≤ most_faces) }
    ensures { result ≡ file_length v e f }
{
    HEAD_BYTES + ROW_BYTES * v + ROW_BYTES * e + FACE_BYTES * f
}

// A table into the first elements of a slice; 5 where it is malformed.
fn fill(text: &[u8], at: usize, w: usize, n: usize, out: &mut [i64]) -> Result<(), Refusal>
    requires w_bound { (w ≤ fields_max) × (n ≤ lines_max) }
    requires n_in_bounds { (at + line_bytes w * n ≤ length text.now) × (w * n ≤ length out.old) }
    ensures numbers { table_of w n (drop at text.now) ≡ given (is_ok result) (take (w * n) out.new) }
    ensures refusal { refusal_of result ≡ cond (is_ok result) 0 5 }
{
    tables::table(text, at, w, n, &mut out[..w * n]).ok_or(Refusal::Field)
}

// The three tables into the first elements of the lent slices; or the refusal 3 or 5.
#[tactic(auto, using(crate::proofs::Laws::bodies))]
pub fn read_body(
    text: &[u8],
    v: usize,
    e: usize,
    f: usize,
    vs: &mut [i64],
    es: &mut [i64],
    fs: &mut [i64],
) -> Result<(), Refusal>
    requires v_bound { (v ≤ most_vertices) × (e ≤ most_half_edges) × (f ≤ most_faces) }
    requires v_in_bounds { (4 * v ≤ length vs.old) × (4 * e ≤ length es.old) × (f ≤ length fs.old) }
    ensures { body_of v e f text.now ≡ said_body (refusal_of result) (take (4 * v) vs.new) (take (4 * e) es.new) (take (1 * f) fs.new) }
{
    if text.len() != text_length(v, e, f) {
        return Err(Refusal::Length);
    }
    fill(text, HEAD_BYTES, 4, v, vs)?;
    let at = HEAD_BYTES + ROW_BYTES * v;
    fill(text, at, 4, e, es)?;
    let last = at + ROW_BYTES * e;
    fill(text, last, 1, f, fs)
}

// The tables come as three lent rooms: they are no `Chart` before `checks` has let them pass, and stand in front of what is lent (no heap).
// The body of a chart whose head has these counts, read and checked; or the refusal 3, 5 or 6 to 11. Its tables stand in
// the first elements of the lent slices.
#[tactic(auto, using(crate::proofs::Laws::loads))]
pub fn load(
    text: &[u8],
    counts: Counts,
    vertices: &mut [i64],
    edges: &mut [usize],
    faces: &mut [usize],
) -> Result<(), Refusal>
    requires { (4 * counts.vertices ≤ length vertices.old) × (4 * counts.half_edges ≤ length edges.old) × (counts.faces ≤ length faces.old) }
    ensures { load_of counts.vertices counts.half_edges counts.faces text.now ≡ told (refusal_of result) (take (4 * counts.vertices) vertices.new) (take (4 * counts.half_edges) edges.new) (take counts.faces faces.new) }
{
    let mut edgecells = [0i64; chart::EDGE_NUMBERS]; // the largest chart's: no heap
    let mut facecells = [0i64; chart::FACES];
    let v = counts.vertices;
    let e = counts.half_edges;
    let f = counts.faces;
    read_body(text, v, e, f, vertices, &mut edgecells, &mut facecells)?;
    let a = 4 * v;
    let b = 4 * e;
    checks::tables_refusal(
        &vertices[..a],
        &edgecells[..b],
        &facecells[..f],
        &mut edges[..b],
        &mut faces[..f],
    )
}
