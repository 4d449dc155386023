// Barycentric weights by the kind of location (01, "Weights"; `Barycentric::get_weights`).
// That a number is below its count, each function asks: a type of a number with its chart would be no plainer.
#![tactic(auto)]

ghost use Rattle.std.specs.Prelude.{◌≡◌, ◌<◌};
ghost use Rattle.geometry.specs.Grid.{at};
ghost use Rattle.chart.specs.Seen.{seen};
ghost use Rattle.weights.specs.Barycentric.{two_point_interpolation, barycentric_interpolation, weights_say, weigh_two, weigh_three, vertex_weights, edge_weights, face_weights};

use chart::Chart;
use geometry::GridPlace;
use points::Point2;

// A vertex and its weight. The vertex' number is 64 bits wide, as all numbers of the public calls are.
#[derive(Clone, Copy)]
pub struct Weighted {
    pub vertex: u64,
    pub weight: f64,
}

// The vertices in the Rust's order, each with its weight.
#[derive(Clone, Copy)]
pub enum BarycentricWeights {
    OneVertex(Weighted),
    TwoWeights(Weighted, Weighted),
    ThreeWeights(Weighted, Weighted, Weighted),
}

// The weights of an edge's start v0 and end v1 at a position on it.
#[tactic(auto, unfolding(crate::specs::Barycentric::two_point_interpolation))]
pub fn two_point_interpolation(v0: Point2, v1: Point2, position: Point2) -> (f64, f64)
    ensures { result ≡ two_point_interpolation v0 v1 position }
{
    let rel = points::project_point(v0, v1, position).relative_position();
    (1.0 - rel, rel)
}

// The weights of three corners. No term is shared or regrouped: another order of operations has other bits.
#[tactic(auto, unfolding(crate::specs::Barycentric::barycentric_interpolation))]
pub fn barycentric_interpolation(
    v1: Point2,
    v2: Point2,
    v3: Point2,
    coordinate: Point2,
) -> (f64, f64, f64)
    ensures { result ≡ barycentric_interpolation v1 v2 v3 coordinate }
{
    let Point2 { x, y } = coordinate;
    let Point2 { x: x1, y: y1 } = v1;
    let Point2 { x: x2, y: y2 } = v2;
    let Point2 { x: x3, y: y3 } = v3;
    let det = (y2 - y3) * (x1 - x3) + (x3 - x2) * (y1 - y3);
    let lambda1 = ((y2 - y3) * (x - x3) + (x3 - x2) * (y - y3)) / det;
    let lambda2 = ((y3 - y1) * (x - x3) + (x1 - x3) * (y - y3)) / det;
    let lambda3 = 1.0 - lambda1 - lambda2;
    (lambda1, lambda2, lambda3)
}

// Two vertices with their weights at q.
#[tactic(auto, unfolding(crate::specs::Barycentric::weigh_two))]
fn weigh_two(chart: &Chart, q: GridPlace, v0: usize, v1: usize) -> BarycentricWeights
    requires first { v0 < (seen chart.now).vertices }
    requires second { v1 < (seen chart.now).vertices }
    ensures { weights_say (Ok result) ≡ weigh_two (seen chart.now) (at q) v0 v1 }
{
    let p0 = points::position(chart, v0);
    let p1 = points::position(chart, v1);
    let (w0, w1) = two_point_interpolation(p0, p1, Point2::from(q));
    BarycentricWeights::TwoWeights(
        Weighted {
            vertex: v0 as u64,
            weight: w0,
        },
        Weighted {
            vertex: v1 as u64,
            weight: w1,
        },
    )
}

// Three vertices with their weights at q.
#[tactic(auto, unfolding(crate::specs::Barycentric::weigh_three))]
fn weigh_three(chart: &Chart, q: GridPlace, v0: usize, v1: usize, v2: usize) -> BarycentricWeights
    requires first { v0 < (seen chart.now).vertices }
    requires second { v1 < (seen chart.now).vertices }
    requires third { v2 < (seen chart.now).vertices }
    ensures { weights_say (Ok result) ≡ weigh_three (seen chart.now) (at q) v0 v1 v2 }
{
    let p0 = points::position(chart, v0);
    let p1 = points::position(chart, v1);
    let p2 = points::position(chart, v2);
    let (w0, w1, w2) = barycentric_interpolation(p0, p1, p2, Point2::from(q));
    BarycentricWeights::ThreeWeights(
        Weighted {
            vertex: v0 as u64,
            weight: w0,
        },
        Weighted {
            vertex: v1 as u64,
            weight: w1,
        },
        Weighted {
            vertex: v2 as u64,
            weight: w2,
        },
    )
}

// On vertex v.
pub fn vertex_weights(v: usize) -> BarycentricWeights
    ensures { weights_say (Ok result) ≡ vertex_weights v }
{
    BarycentricWeights::OneVertex(Weighted {
        vertex: v as u64,
        weight: 1.0,
    })
}

// On half-edge h: from where it starts to where its partner does.
pub fn edge_weights(chart: &Chart, q: GridPlace, h: usize) -> BarycentricWeights
    requires { h < (seen chart.now).half_edges }
    ensures { weights_say (Ok result) ≡ edge_weights (seen chart.now) (at q) h }
{
    weigh_two(chart, q, chart.origin(h), chart.origin(chart.partner(h)))
}

// In face f: the origin of the adjacent half-edge's prev comes first.
pub fn face_weights(chart: &Chart, q: GridPlace, f: usize) -> BarycentricWeights
    requires { f < (seen chart.now).faces }
    ensures { weights_say (Ok result) ≡ face_weights (seen chart.now) (at q) f }
{
    let e1 = chart.adjacent(f);
    let v0 = chart.origin(chart.prev(e1));
    let v1 = chart.origin(e1);
    let v2 = chart.origin(chart.next(e1));
    weigh_three(chart, q, v0, v1, v2)
}
