// The gradient at a vertex (01, "Gradient and value"; `estimate_gradient`): normals of the triangles about it, summed, and one division each.
// That a number is below its count, each function asks: a type of a number with its chart would be no plainer.
#![tactic(auto)]

ghost use Rattle.std.specs.Prelude.{◌≡◌, ◌≤◌, ◌<◌, length};
ghost use Rattle.chart.specs.Seen.{seen};
ghost use Rattle.gradient.specs.Turn.{ccw};
ghost use Rattle.gradient.specs.Gradient.{spot_of, end_spot, difference, plus, normal_of, add_normal, add_pair, final_normal, gradient_from, gradient_of};
ghost use Rattle.gradient.specs.Estimated.{Estimated};

mod table;
mod valued;

use chart::Chart;
use std::ops::{Add, Sub};
pub use table::Gradients;
pub use valued::ValuedChart;

// A place with a vertex's value as its height, or a normal.
#[derive(Clone, Copy)]
pub struct Vector3 {
    pub x: f64,
    pub y: f64,
    pub z: f64,
}

#[derive(Clone, Copy, Default)]
pub struct Gradient {
    pub x: f64,
    pub y: f64,
}

impl Add for Vector3 {
    type Output = Vector3;

    ghost add_gives = { λ a b r. r ≡ plus a b };

    fn add(self, other: Vector3) -> Vector3 {
        Vector3 {
            x: self.x + other.x,
            y: self.y + other.y,
            z: self.z + other.z,
        }
    }
}

impl Sub for Vector3 {
    type Output = Vector3;

    ghost sub_gives = { λ a b r. r ≡ difference a b };

    fn sub(self, other: Vector3) -> Vector3 {
        Vector3 {
            x: self.x - other.x,
            y: self.y - other.y,
            z: self.z - other.z,
        }
    }
}

// Vertex v with its value.
fn spot_of(valued: &ValuedChart, v: usize) -> Vector3
    requires { v < (seen valued.now.chart).vertices }
    ensures { result ≡ spot_of (seen valued.now.chart) v }
{
    let p = points::position(&valued.chart, v);
    Vector3 {
        x: p.x,
        y: p.y,
        z: valued.value(v),
    }
}

// The vertex where half-edge h ends, with its value.
fn end_spot(valued: &ValuedChart, h: usize) -> Vector3
    requires { h < (seen valued.now.chart).half_edges }
    ensures { result ≡ end_spot (seen valued.now.chart) h }
{
    spot_of(valued, valued.chart.origin(valued.chart.partner(h)))
}

// The next half-edge counterclockwise about the vertex where h starts (`flips::behind_prev` is this step under the Rust's name, in another crate).
fn ccw_of(chart: &Chart, h: usize) -> usize
    requires { h < (seen chart.now).half_edges }
    ensures value { result ≡ ccw (seen chart.now) h }
    ensures below { result < (seen chart.now).half_edges }
{
    chart.partner(chart.prev(h))
}

// The normal of the triangle v, p0, p1, twice its size.
#[tactic(auto, unfolding(crate::specs::Gradient::normal_of))]
fn normal(v: Vector3, p0: Vector3, p1: Vector3) -> Vector3
    ensures { result ≡ normal_of v p0 p1 }
{
    let d0 = p0 - v;
    let d1 = p1 - v;
    Vector3 {
        x: d0.y * d1.z - d0.z * d1.y,
        y: d0.z * d1.x - d0.x * d1.z,
        z: d0.x * d1.y - d0.y * d1.x,
    }
}

// One more normal: one that does not point up is left out.
#[tactic(auto, unfolding(crate::specs::Gradient::add_normal))]
fn add_normal(sum: Vector3, n: Vector3) -> Vector3
    ensures { result ≡ add_normal sum n }
{
    if n.z > 0.0 { sum + n } else { sum }
}

// The normal of one more pair of neighbours.
fn add_pair(v: Vector3, sum: Vector3, p0: Vector3, p1: Vector3) -> Vector3
    ensures { result ≡ add_pair v sum p0 p1 }
{
    add_normal(sum, normal(v, p0, p1))
}

// The sum of the normals about v. The turn keeps the last end and closes with the first; on an accepted chart it is back before its steps run out.
#[tactic(auto, using(crate::proofs::Steps::steps))]
fn final_normal(valued: &ValuedChart, v: usize) -> Vector3
    requires { v < (seen valued.now.chart).vertices }
    ensures { result ≡ final_normal (seen valued.now.chart) v }
{
    let chart = valued.chart;
    let spot = spot_of(valued, v);
    let start = chart.out(v);
    let first = end_spot(valued, start);
    let mut sum = Vector3 {
        x: 0.0,
        y: 0.0,
        z: 0.0,
    };
    let mut last = first;
    let mut h = ccw_of(&chart, start);
    for _ in 1..chart.half_edge_count() {
        if h == start {
            break;
        }
        let p = end_spot(valued, h);
        sum = add_pair(spot, sum, last, p);
        last = p;
        h = ccw_of(&chart, h);
    }
    add_pair(spot, sum, last, first)
}

// The gradient of the plane with this normal: -x is the Rust's negation, by which a sum of 0 gives -0.
#[tactic(auto, unfolding(crate::specs::Gradient::gradient_from))]
fn gradient_from(n: Vector3) -> Gradient
    ensures { result ≡ gradient_from n }
{
    if n.z != 0.0 {
        Gradient {
            x: -n.x / n.z,
            y: -n.y / n.z,
        }
    } else {
        Gradient { x: 0.0, y: 0.0 }
    }
}

// The gradient at vertex v.
pub fn estimate_gradient(valued: &ValuedChart, v: usize) -> Gradient
    requires { v < (seen valued.now.chart).vertices }
    ensures { result ≡ gradient_of (seen valued.now.chart) v }
{
    gradient_from(final_normal(valued, v))
}

// How many vertices the largest chart has, and so the array of their gradients: no heap.
pub const VERTICES: usize = 128;

// The gradients of all vertices, into the first elements of a lent slice: for many loads on one chart.
pub fn estimate_gradients(valued: &ValuedChart, gradients: &mut [Gradient])
    requires { (seen valued.now.chart).vertices ≤ length gradients.old }
    ensures { Estimated (seen valued.now.chart) gradients.new (seen valued.now.chart).vertices }
{
    let n = valued.chart.vertex_count();
    for (v, gradient) in gradients[..n].iter_mut().enumerate() {
        *gradient = estimate_gradient(valued, v);
    }
}
