// A chart's tables written back as chart text: refusals 2, 4 and 6 to 11 on the tables, then 18, then the text.
// Vertices, edges and faces stay three slices, as C lends them: they are no `Chart` before 6 has let them pass, and the file's numbers are signed.
#![tactic(auto)]

ghost use Rattle.std.specs.Prelude.{◌≡◌, ◌*◌, length};
ghost use Rattle.refusal.specs.Number.{refusal_of};
ghost use Rattle.chart.specs.Tables.{rows};
ghost use Rattle.ranges.specs.Passed.{Counted};
ghost use Rattle.checks.specs.Checks.{tables_refusal};
ghost use Rattle.writing.specs.Writing.{saved_left, uneven, numbers_refusal, write_of};

use ranges::Counts;
use refusal::Refusal;

// 6 to 11. The tables taken over as unsigned numbers are of no further use; their rooms are the largest chart's: no heap.
fn tables_refusal(vertices: &[i64], edges: &[i64], faces: &[i64]) -> Result<(), Refusal>
    requires counted { Counted (rows vertices.now) (rows edges.now) (length faces.now) }
    requires whole_rows { length edges.now ≡ 4 * rows edges.now }
    ensures { refusal_of result ≡ tables_refusal vertices.now edges.now faces.now }
{
    let mut edgeroom = [0usize; chart::EDGE_NUMBERS];
    let mut faceroom = [0usize; chart::FACES];
    let b = edges.len();
    let f = faces.len();
    checks::tables_refusal(
        vertices,
        edges,
        faces,
        &mut edgeroom[..b],
        &mut faceroom[..f],
    )
}

// 2: the vertex or the half-edge slice is no multiple of four.
fn is_uneven(vertices: &[i64], edges: &[i64]) -> bool
    ensures { result ≡ uneven vertices.now edges.now }
{
    vertices.len() % 4 != 0 || edges.len() % 4 != 0
}

// 2, 4, 6 to 11.
#[tactic(auto, unfolding(crate::specs::Writing::numbers_refusal))]
fn numbers_refusal(vertices: &[i64], edges: &[i64], faces: &[i64]) -> Result<(), Refusal>
    ensures { refusal_of result ≡ numbers_refusal vertices.now edges.now faces.now }
{
    if is_uneven(vertices, edges) {
        return Err(Refusal::Slices);
    }
    Counts::new(vertices.len() / 4, edges.len() / 4, faces.len())?;
    tables_refusal(vertices, edges, faces)
}

// The text of tables that none of these meets, and its length; or 18. Bytes into the buffer that C lends, and no `Display`.
#[tactic(auto, using(crate::proofs::Put::put))]
pub fn put_text(
    vertices: &[i64],
    edges: &[i64],
    faces: &[i64],
    text: &mut [u8],
) -> Result<u64, Refusal>
    requires { numbers_refusal vertices.now edges.now faces.now ≡ 0 }
    ensures { saved_left result text.new ≡ write_of vertices.now edges.now faces.now text.old }
{
    let length = reading::text_length(vertices.len() / 4, edges.len() / 4, faces.len());
    if text.len() < length {
        return Err(Refusal::TextRoom);
    }
    Ok(sheets::put_chart(vertices, edges, faces, text) as u64)
}

// Three tables as numbers in file order, written as chart text into a lent buffer: how long the text is.
#[tactic(auto, using(crate::proofs::Laws::refused_first))]
pub fn write_chart(
    vertices: &[i64],
    edges: &[i64],
    faces: &[i64],
    text: &mut [u8],
) -> Result<u64, Refusal>
    ensures { saved_left result text.new ≡ write_of vertices.now edges.now faces.now text.old }
{
    numbers_refusal(vertices, edges, faces)?;
    put_text(vertices, edges, faces, text)
}
