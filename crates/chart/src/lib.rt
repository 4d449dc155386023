// The chart's tables, three flat slices in file order (the definitions read a chart off them so), and the accessors by which every other function
// reads them: of tables whose numbers are in range, the methods of `Chart`.
//     vertices: x, y, value, out half-edge    edges (half-edges): origin, next, prev, face    faces: adjacent half-edge
// That an index is below a count, each function asks: a row's number belongs to a table only beside it, and a type of the two would be no plainer.
#![tactic(auto)]

ghost use Rattle.std.specs.Prelude.{◌≡◌, ◌<◌, length};
ghost use Rattle.geometry.specs.Plane.{OnGrid};
ghost use Rattle.chart.specs.Tables.{unsigned, rows, place_of, value_of, out_of, origin_of, next_of, prev_of, face_of, adjacent_of};
ghost use Rattle.chart.specs.Chart.{chart_of, partner, InRange};

mod tables;

use geometry::Place;
pub use tables::Chart;

// How many numbers the largest chart's tables have, and so the arrays that hold them: no heap.
pub const VERTEX_NUMBERS: usize = 512;

pub const EDGE_NUMBERS: usize = 3024;

pub const FACES: usize = 252;

// A number that 6 has let pass, taken over as an unsigned one. Neither `From` nor `TryFrom`: it is total, and 0 for a negative number.
pub fn to_unsigned(z: i64) -> usize
    ensures { result ≡ unsigned z }
{
    z.max(0) as usize
}

pub fn place_of(vertices: &[i64], v: usize) -> Place
    requires { v < rows vertices.now }
    ensures { result ≡ place_of vertices.now v }
{
    Place {
        x: vertices[v * 4],
        y: vertices[v * 4 + 1],
    }
}

pub fn value_of(vertices: &[i64], v: usize) -> i64
    requires { v < rows vertices.now }
    ensures { result ≡ value_of vertices.now v }
{
    vertices[v * 4 + 2]
}

pub fn out_of(vertices: &[i64], v: usize) -> usize
    requires { v < rows vertices.now }
    ensures { result ≡ out_of vertices.now v }
{
    to_unsigned(vertices[v * 4 + 3])
}

pub fn origin_of(edges: &[usize], h: usize) -> usize
    requires { h < rows edges.now }
    ensures { result ≡ origin_of edges.now h }
{
    edges[h * 4]
}

pub fn next_of(edges: &[usize], h: usize) -> usize
    requires { h < rows edges.now }
    ensures { result ≡ next_of edges.now h }
{
    edges[h * 4 + 1]
}

pub fn prev_of(edges: &[usize], h: usize) -> usize
    requires { h < rows edges.now }
    ensures { result ≡ prev_of edges.now h }
{
    edges[h * 4 + 2]
}

pub fn face_of(edges: &[usize], h: usize) -> usize
    requires { h < rows edges.now }
    ensures { result ≡ face_of edges.now h }
{
    edges[h * 4 + 3]
}

pub fn adjacent_of(faces: &[usize], f: usize) -> usize
    requires { f < length faces.now }
    ensures { result ≡ adjacent_of faces.now f }
{
    faces[f]
}

// The partner of half-edge 2k is 2k + 1, and the reverse.
pub fn partner_of(h: usize) -> usize
    requires { h < 9223372036854775807 }
    ensures { result ≡ partner h }
{
    if h % 2 == 0 { h + 1 } else { h - 1 }
}
