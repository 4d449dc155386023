// The queries on checked tables, behind the refusals 12 to 14.
// Each writes out the two or three lines in which it is like another (13, the place, 14; the search): one function of them would owe more clauses.
#![tactic(auto)]

ghost use Rattle.std.specs.Prelude.{◌≡◌, ◌++◌, ◌≤◌, Ok, length, drop};
ghost use Rattle.geometry.specs.Grid.{at};
ghost use Rattle.chart.specs.Seen.{seen};
ghost use Rattle.locate.specs.Laws.{Holds};
ghost use Rattle.weights.specs.Barycentric.{weights_say};
ghost use Rattle.query.specs.Gradient.{gradient_says, gradient_on};
ghost use Rattle.query.specs.Natural.{edges_left, edges_at, edges_on, shares_left, shares_at, shares_on};
ghost use Rattle.query.specs.Location.{position_says, locate_on};
ghost use Rattle.query.specs.Weights.{barycentric_on};

use accepted::AcceptedChart;
use flips::HalfEdges;
use geometry::{GridPlace, Place};
use gradient::{Gradient, ValuedChart};
use locate::Location;
use natural::EdgeList;
use refusal::Refusal;
use weights::BarycentricWeights;

// On checked tables: 13, then where the load lies; the numbers are those of vertices, half-edges and faces.
#[tactic(auto, unfolding(crate::specs::Location::locate_on))]
pub fn locate_on(accepted: &AcceptedChart, q: Place) -> Result<Location, Refusal>
    ensures { position_says result ≡ locate_on (seen accepted.now.chart) q }
{
    let q = GridPlace::new(q.x, q.y).ok_or(Refusal::OffGrid)?;
    Ok(locate::locate(&accepted.chart, q))
}

// On checked tables: 13, then the weights where the load lies.
#[tactic(auto, unfolding(crate::specs::Weights::barycentric_on))]
pub fn weights_on(accepted: &AcceptedChart, q: Place) -> Result<BarycentricWeights, Refusal>
    ensures { weights_say result ≡ barycentric_on (seen accepted.now.chart) q }
{
    let q = GridPlace::new(q.x, q.y).ok_or(Refusal::OffGrid)?;
    let place = locate::locate(&accepted.chart, q);
    values::weights_at(&accepted.chart, q, place)
}

// On checked tables: 12, then the gradient.
#[tactic(auto, unfolding(crate::specs::Gradient::gradient_on))]
pub fn gradient_on(valued: &ValuedChart, v: usize) -> Result<Gradient, Refusal>
    ensures { gradient_says result ≡ gradient_on (seen valued.now.chart) v }
{
    if v < valued.chart.vertex_count() {
        return Ok(gradient::estimate_gradient(valued, v));
    }
    Err(Refusal::Unknown)
}

// How many edges or weights were written, and how many faces were opened.
#[derive(Clone, Copy, PartialEq, Eq)]
pub struct Listed {
    pub count: u64,
    pub opened: u64,
}

// A list into the first elements of a lent slice: `copy_from_slice` takes one type on both sides.
#[tactic(auto, using(crate::proofs::Copied::copied))]
fn copy_list(list: &[usize], out: &mut [u64])
    requires { length list.now ≤ length out.old }
    ensures { out.new ≡ list.now ++ drop (length list.now) out.old }
{
    for (i, h) in list.iter().enumerate() {
        out[i] = *h as u64;
    }
}

// At a location that was found: the edges found, then copied out.
// By answers, what the check does not find: how long the list is that was found, or that the load on the grid is the load.
fn edges_at(accepted: &AcceptedChart, q: GridPlace, place: Location, out: &mut [u64]) -> Listed
    requires holds { Holds (seen accepted.now.chart) (at q) place }
    requires room { (seen accepted.now.chart).half_edges ≤ length out.old }
    ensures { edges_left (Ok result) out.new ≡ edges_at (seen accepted.now.chart) (at q) place out.old }
{
    let mut list = HalfEdges::new();
    let opened = neighbors::get_natural_neighbor_edges(&accepted.chart, q, place, &mut list);
    copy_list(&list, out);
    Listed {
        count: list.len() as u64,
        opened: opened as u64,
    }
}

// On checked tables: 13, 14, then the edges.
// By answers, what the check does not find: how long the list is that was found, or that the load on the grid is the load.
#[tactic(auto, unfolding(crate::specs::Natural::edges_on), using(locate::proofs::Laws::located))]
pub fn edges_on(accepted: &AcceptedChart, q: Place, out: &mut [u64]) -> Result<Listed, Refusal>
    requires { (seen accepted.now.chart).half_edges ≤ length out.old }
    ensures { edges_left result out.new ≡ edges_on (seen accepted.now.chart) q out.old }
{
    let q = GridPlace::new(q.x, q.y).ok_or(Refusal::OffGrid)?;
    let place = locate::locate(&accepted.chart, q);
    values::place_refusal(place)?;
    Ok(edges_at(accepted, q, place, out))
}

// At a location that was found: the edges, and the weights from them.
fn shares_at(
    accepted: &AcceptedChart,
    q: GridPlace,
    place: Location,
    owners: &mut [u64],
    weights: &mut [f64],
) -> Listed
    requires holds { Holds (seen accepted.now.chart) (at q) place }
    requires owners_room { (seen accepted.now.chart).half_edges ≤ length owners.old }
    requires weights_room { (seen accepted.now.chart).half_edges ≤ length weights.old }
    ensures { shares_left (Ok result) owners.new weights.new ≡ shares_at (seen accepted.now.chart) (at q) place owners.old weights.old }
{
    let mut list = HalfEdges::new();
    let opened = neighbors::get_natural_neighbor_edges(&accepted.chart, q, place, &mut list);
    let edges = EdgeList {
        chart: accepted.chart,
        edges: &list,
    };
    natural::natural_weights(&edges, q, owners, weights);
    Listed {
        count: list.len() as u64,
        opened: opened as u64,
    }
}

// On checked tables: 13, 14, then the weights.
// By answers, what the check does not find: how long the list is that was found, or that the load on the grid is the load.
#[tactic(auto, unfolding(crate::specs::Natural::shares_on), using(locate::proofs::Laws::located))]
pub fn shares_on(
    accepted: &AcceptedChart,
    q: Place,
    owners: &mut [u64],
    weights: &mut [f64],
) -> Result<Listed, Refusal>
    requires owners_room { (seen accepted.now.chart).half_edges ≤ length owners.old }
    requires weights_room { (seen accepted.now.chart).half_edges ≤ length weights.old }
    ensures { shares_left result owners.new weights.new ≡ shares_on (seen accepted.now.chart) q owners.old weights.old }
{
    let q = GridPlace::new(q.x, q.y).ok_or(Refusal::OffGrid)?;
    let place = locate::locate(&accepted.chart, q);
    values::place_refusal(place)?;
    Ok(shares_at(accepted, q, place, owners, weights))
}
