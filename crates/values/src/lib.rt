// The value of a load on checked tables (01, "Gradient and value"): the location and its refusals, the weights, and the value by a method.
// Chart, load and location go side by side: that they belong together is one clause, which a type of the three would say as well, and no plainer.
#![tactic(auto)]

ghost use Rattle.std.specs.Prelude.{◌≡◌, [], length, Ok};
ghost use Rattle.geometry.specs.Grid.{at};
ghost use Rattle.refusal.specs.Number.{refusal_of};
ghost use Rattle.chart.specs.Limits.{most_half_edges};
ghost use Rattle.chart.specs.Seen.{seen};
ghost use Rattle.locate.specs.Location.{location_of};
ghost use Rattle.locate.specs.Laws.{Holds};
ghost use Rattle.neighbors.specs.Neighbors.{neighbors_of};
ghost use Rattle.weights.specs.Barycentric.{weights_say};
ghost use Rattle.natural.specs.Facts.{vertices_in};
ghost use Rattle.interpolate.specs.Values.{Owners};
ghost use Rattle.values.specs.Located.{place_refusal, barycentric_at};
ghost use Rattle.values.specs.Method.{number_of, known};
ghost use Rattle.values.specs.Value.{method_of, value_says, by_method, barycentric_value, natural_value, value_at, located_value, value_on};

mod prepared;

use accepted::AcceptedChart;
use chart::Chart;
use flips::HalfEdges;
use geometry::{GridPlace, Place};
use gradient::{Gradient, Gradients, ValuedChart};
use lines::Line;
use locate::Location;
use natural::EdgeList;
pub use prepared::Prepared;
use refusal::Refusal;
use weights::BarycentricWeights;

// How a value is worked out from those of the vertices.
#[derive(Clone, Copy, PartialEq, Eq)]
pub enum Method {
    Barycentric = 1,
    Natural = 2,
    WithGradients = 3,
}

impl Method {
    // The method of a number, if it has one: an Option and no `TryFrom`, as the one refusal, 12, is said after those of the chart.
    pub fn new(number: i64) -> Option<Method>
        ensures { known result ≡ method_of number }
    {
        match number {
            1 => Some(Method::Barycentric),
            2 => Some(Method::Natural),
            3 => Some(Method::WithGradients),
            _ => None,
        }
    }
}

// On checked tables: the weights at a location that was found there.
// By answers, what the check does not find: a fact under an arm of the location, and the list that is handed on.
pub fn weights_at(
    chart: &Chart,
    q: GridPlace,
    place: Location,
) -> Result<BarycentricWeights, Refusal>
    requires { place ≡ location_of (seen chart.now) (at q) }
    ensures { weights_say result ≡ barycentric_at (seen chart.now) (at q) place }
{
    match place {
        Location::OnVertex(v) => Ok(weights::vertex_weights(v as usize)),
        Location::OnEdge(h) => Ok(weights::edge_weights(chart, q, h as usize)),
        Location::OnFace(f) => Ok(weights::face_weights(chart, q, f as usize)),
        Location::OutsideOfConvexHull(_) => Err(Refusal::Outside),
    }
}

// A load outside the hull is turned down.
pub fn place_refusal(place: Location) -> Result<(), Refusal>
    ensures { refusal_of result ≡ place_refusal place }
{
    match place {
        Location::OutsideOfConvexHull(_) => Err(Refusal::Outside),
        _ => Ok(()),
    }
}

// Method 1: the vertices' values by their barycentric weights.
fn weighed_value(valued: &ValuedChart, w: BarycentricWeights) -> f64
    requires { Owners (seen valued.now.chart) (vertices_in (weights_say (Ok w))) }
    ensures { value_says (Ok result) ≡ barycentric_value (seen valued.now.chart) (weights_say (Ok w)) }
{
    match w {
        BarycentricWeights::OneVertex(u) => {
            interpolate::value_sum(valued, &[u.vertex as usize], &[u.weight])
        }
        BarycentricWeights::TwoWeights(u, v) => {
            let owners = [u.vertex as usize, v.vertex as usize];
            interpolate::value_sum(valued, &owners, &[u.weight, v.weight])
        }
        BarycentricWeights::ThreeWeights(u, v, t) => {
            let owners = [u.vertex as usize, v.vertex as usize, t.vertex as usize];
            interpolate::value_sum(valued, &owners, &[u.weight, v.weight, t.weight])
        }
    }
}

// Methods 2 and 3, from the vertices and their weights.
fn value_by(
    gradients: &Gradients,
    method: Method,
    q: GridPlace,
    owners: &[usize],
    weights: &[f64],
) -> f64
    requires { Owners (seen gradients.now.valued.chart) owners.now }
    ensures { result ≡ by_method (number_of method) (seen gradients.now.valued.chart) (at q) owners.now weights.now }
{
    match method {
        Method::Natural => interpolate::value_sum(&gradients.valued, owners, weights),
        _ => interpolate::value_blend(gradients, q, owners, weights),
    }
}

// No heap: what methods 2 and 3 write on the way, in arrays for all half-edges of the largest chart: the search's stack, the list of edges, and two numbers
// for each. A batch makes it once.
#[derive(Drop)]
pub struct Scratch {
    pub waiting: HalfEdges,
    pub list: HalfEdges,
    pub xs: [f64; 756],
    pub ys: [f64; 756],
}

impl Scratch {
    pub fn new() -> Self
        ensures waiting { result.waiting.items ≡ [] }
        ensures list { result.list.items ≡ [] }
        ensures xs { length result.xs ≡ most_half_edges }
        ensures ys { length result.ys ≡ most_half_edges }
    {
        Self {
            waiting: HalfEdges::new(),
            list: HalfEdges::new(),
            xs: [0.0; 756],
            ys: [0.0; 756],
        }
    }
}

// Methods 2 and 3 at a location that was found.
// By answers, what the check does not find: a fact under an arm of the location, and the list that is handed on.
fn natural_value(
    prepared: &Prepared,
    method: Method,
    q: GridPlace,
    place: Location,
    scratch: &mut Scratch,
) -> f64
    requires { Holds (seen prepared.now.accepted.chart) (at q) place }
    ensures { value_says (Ok result) ≡ natural_value (number_of method) (seen prepared.now.accepted.chart) (at q) (neighbors_of (seen prepared.now.accepted.chart) (at q) place).edges }
{
    let chart = prepared.accepted.chart;
    neighbors::natural_neighbor_edges_by(&chart, q, place, &mut scratch.waiting, &mut scratch.list);
    let n = scratch.list.len();
    let edges = EdgeList {
        chart,
        edges: &scratch.list,
    };
    natural::natural_shares(&edges, q, &mut scratch.xs, &mut scratch.ys);
    natural::to_origins(chart.edges, &mut scratch.list);
    value_by(
        &prepared.gradients(),
        method,
        q,
        &scratch.list,
        &scratch.xs[..n],
    )
}

// At a location that was found.
// By answers, what the check does not find: a fact under an arm of the location, and the list that is handed on.
#[tactic(auto, using(locate::proofs::Laws::located))]
fn value_at(
    prepared: &Prepared,
    method: Method,
    q: GridPlace,
    place: Location,
    scratch: &mut Scratch,
) -> Result<f64, Refusal>
    requires { place ≡ location_of (seen prepared.now.accepted.chart) (at q) }
    ensures { value_says result ≡ value_at (number_of method) (seen prepared.now.accepted.chart) (at q) place }
{
    if method == Method::Barycentric {
        let chart = prepared.accepted.chart;
        let w = weights_at(&chart, q, place)?;
        return Ok(weighed_value(&ValuedChart { chart }, w));
    }
    Ok(natural_value(prepared, method, q, place, scratch))
}

// At a load on the grid: 14, then the value.
#[tactic(auto, unfolding(crate::specs::Value::located_value))]
pub fn located_value(
    prepared: &Prepared,
    method: Method,
    q: GridPlace,
    scratch: &mut Scratch,
) -> Result<f64, Refusal>
    ensures { value_says result ≡ located_value (number_of method) (seen prepared.now.accepted.chart) (at q) }
{
    let place = locate::locate_by(&prepared.lines(), q);
    place_refusal(place)?;
    value_at(prepared, method, q, place, scratch)
}

// On checked tables: 12, 13, 14, then the value.
// Inlined, its rooms would stand beside those that reading the chart takes before it: so a call takes less stack.
#[inline(never)]
#[tactic(auto, unfolding(crate::specs::Value::value_on))]
pub fn value_on(
    accepted: &AcceptedChart,
    method: Option<Method>,
    q: Place,
    scratch: &mut Scratch,
) -> Result<f64, Refusal>
    ensures { value_says result ≡ value_on (known method) (seen accepted.now.chart) q }
{
    let method = method.ok_or(Refusal::Unknown)?;
    let q = GridPlace::new(q.x, q.y).ok_or(Refusal::OffGrid)?;
    // As in `batch::work`: a room that lends both would meet the chart's lifetime in `Prepared`, which the borrow checker does not cover yet (tried).
    let mut lines = [Line::default(); lines::EDGES];
    lines::draw(&accepted.chart, &mut lines);
    let valued = ValuedChart {
        chart: accepted.chart,
    };
    let mut gradients = [Gradient::default(); gradient::VERTICES];
    gradient::estimate_gradients(&valued, &mut gradients);
    let prepared = Prepared {
        accepted: *accepted,
        lines: &lines,
        gradients: &gradients,
    };
    located_value(&prepared, method, q, scratch)
}
