// Refusals 4 and 6: the counts, and the range of every number, of three tables of whole numbers in file order.
// That an index is below a count of rows, each function asks: a row's number belongs to a table only beside it, and a type of the two would be no plainer.
#![tactic(auto)]

ghost use Rattle.std.specs.Prelude.{◌≡◌, not, ◌<◌, length, pos};
ghost use Rattle.whole.specs.First.{some};
ghost use Rattle.whole.specs.Bound.{outside};
ghost use Rattle.chart.specs.Tables.{rows, value_of};
ghost use Rattle.ranges.specs.Ranges.{value_max, counts_refused, not_below, cell, bad_vertex, bad_half_edge, bad_face, out_of_range};

mod counts;

pub use counts::Counts;

// The largest value of a vertex.
pub const VALUE_MAX: i64 = 1000000;

// 4: vertices not 3 to 128; half-edges odd or not 6 to 756; faces not 2 to 252.
#[tactic(auto, unfolding(crate::specs::Ranges::counts_refused))]
pub fn counts_refused(vertices: i64, edges: i64, faces: i64) -> bool
    ensures { result ≡ counts_refused vertices edges faces }
{
    whole::is_outside(3, 128, vertices)
        || edges.unsigned_abs() % 2 != 0
        || whole::is_outside(6, 756, edges)
        || whole::is_outside(2, 252, faces)
}

// Whether 4 lets counts pass. One past its most is told first, so that the others are numbers of 64 bits with a sign.
#[tactic(auto, unfolding(crate::specs::Ranges::counts_refused))]
fn passes(vertices: usize, half_edges: usize, faces: usize) -> bool
    ensures { result ≡ not (counts_refused (pos vertices) (pos half_edges) (pos faces)) }
{
    vertices <= 128
        && half_edges <= 756
        && faces <= 252
        && !counts_refused(vertices as i64, half_edges as i64, faces as i64)
}

// Whether a number is negative or not below the count n.
#[tactic(auto, unfolding(crate::specs::Ranges::not_below))]
pub fn is_not_below(n: usize, z: i64) -> bool
    ensures { result ≡ not_below n z }
{
    z < 0 || n <= chart::to_unsigned(z)
}

// Whether the number in row r and column k of a table is negative or not below n, the count of what it names (no length of this slice).
fn cell_not_below(table: &[i64], r: usize, k: usize, n: usize) -> bool
    requires { (r < rows table.now) × (k < 4) }
    ensures { result ≡ not_below n (cell table.now r k) }
{
    is_not_below(n, table[r * 4 + k])
}

fn value_outside(vertices: &[i64], v: usize) -> bool
    requires { v < rows vertices.now }
    ensures { result ≡ outside (pos 0) (pos value_max) (value_of vertices.now v) }
{
    whole::is_outside(0, VALUE_MAX, vertices[v * 4 + 2])
}

// Whether a number of vertex v is out of range; edges is the count of half-edges.
#[tactic(auto, unfolding(crate::specs::Ranges::bad_vertex))]
fn is_bad_vertex(vertices: &[i64], edges: usize, v: usize) -> bool
    requires { v < rows vertices.now }
    ensures { result ≡ bad_vertex edges vertices.now v }
{
    geometry::off_grid(chart::place_of(vertices, v))
        || value_outside(vertices, v)
        || cell_not_below(vertices, v, 3, edges)
}

// Whether a number of half-edge h is out of range; vertices and faces are counts.
#[tactic(auto, unfolding(crate::specs::Ranges::bad_half_edge))]
fn is_bad_half_edge(edges: &[i64], vertices: usize, faces: usize, h: usize) -> bool
    requires { h < rows edges.now }
    ensures { result ≡ bad_half_edge vertices faces edges.now h }
{
    let n = edges.len() / 4;
    cell_not_below(edges, h, 0, vertices)
        || cell_not_below(edges, h, 1, n)
        || cell_not_below(edges, h, 2, n)
        || cell_not_below(edges, h, 3, faces)
}

// Whether the adjacent half-edge of face f is out of range; edges is the count of half-edges.
#[tactic(auto, unfolding(crate::specs::Ranges::bad_face))]
fn is_bad_face(faces: &[i64], edges: usize, f: usize) -> bool
    requires { f < length faces.now }
    ensures { result ≡ bad_face edges faces.now f }
{
    is_not_below(edges, faces[f])
}

#[tactic(auto, using(whole::proofs::Scans::scans))]
fn some_bad_vertex(vertices: &[i64], edges: usize) -> bool
    ensures { result ≡ some (bad_vertex edges vertices.now) (rows vertices.now) }
{
    (0..vertices.len() / 4).any(|v| is_bad_vertex(vertices, edges, v))
}

#[tactic(auto, using(whole::proofs::Scans::scans))]
fn some_bad_half_edge(edges: &[i64], vertices: usize, faces: usize) -> bool
    ensures { result ≡ some (bad_half_edge vertices faces edges.now) (rows edges.now) }
{
    (0..edges.len() / 4).any(|h| is_bad_half_edge(edges, vertices, faces, h))
}

#[tactic(auto, using(whole::proofs::Scans::scans))]
fn some_bad_face(faces: &[i64], edges: usize) -> bool
    ensures { result ≡ some (bad_face edges faces.now) (length faces.now) }
{
    (0..faces.len()).any(|f| is_bad_face(faces, edges, f))
}

// 6: a number of the tables out of range. They are rows of whole numbers, and a `Chart` only once this has let them pass.
#[tactic(auto, unfolding(crate::specs::Ranges::out_of_range))]
pub fn out_of_range(vertices: &[i64], edges: &[i64], faces: &[i64]) -> bool
    ensures { result ≡ out_of_range vertices.now edges.now faces.now }
{
    let n = edges.len() / 4;
    some_bad_vertex(vertices, n)
        || some_bad_half_edge(edges, vertices.len() / 4, faces.len())
        || some_bad_face(faces, n)
}
