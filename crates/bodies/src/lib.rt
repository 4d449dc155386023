// The queries on the body of a chart whose head has these counts: its tables are read and checked once, then asked.
// Each writes out these two lines and its question (`locate_in` and `weights_in` are twins but for it): a generic one would owe its clauses.
// The text and its head's counts go side by side: a type of both would be made for one call, and taken apart in it.
#![tactic(auto)]

ghost use Rattle.std.specs.Prelude.{◌≡◌, ◌≤◌, length};
ghost use Rattle.refusal.specs.Number.{refusal_of};
ghost use Rattle.reading.specs.Reading.{load_of, refusal_of as body_refusal};
ghost use Rattle.query.specs.Gradient.{gradient_says, gradient_in};
ghost use Rattle.query.specs.Natural.{edges_left, edges_in, shares_left, shares_in};
ghost use Rattle.weights.specs.Barycentric.{weights_say};
ghost use Rattle.values.specs.Method.{known};
ghost use Rattle.values.specs.Value.{value_says};
ghost use Rattle.query.specs.Value.{value_in};
ghost use Rattle.query.specs.Location.{position_says, locate_in};
ghost use Rattle.query.specs.Weights.{barycentric_in};

use accepted::Room;
use geometry::Place;
use gradient::{Gradient, ValuedChart};
use locate::Location;
use query::Listed;
use ranges::Counts;
use refusal::Refusal;
use values::{Method, Scratch};
use weights::BarycentricWeights;

// What meets the body of a chart whose head has these counts.
pub fn body_refusal(text: &[u8], counts: Counts) -> Result<(), Refusal>
    ensures { refusal_of result ≡ body_refusal (load_of counts.vertices counts.half_edges counts.faces text.now) }
{
    let mut room = Room::new();
    room.load(text, counts)?;
    Ok(())
}

// In the body of a chart whose head has these counts: where a load lies,
pub fn locate_in(text: &[u8], counts: Counts, q: Place) -> Result<Location, Refusal>
    ensures { position_says result ≡ locate_in (load_of counts.vertices counts.half_edges counts.faces text.now) q }
{
    let mut room = Room::new();
    let accepted = room.load(text, counts)?;
    query::locate_on(&accepted, q)
}

// its barycentric weights,
pub fn weights_in(text: &[u8], counts: Counts, q: Place) -> Result<BarycentricWeights, Refusal>
    ensures { weights_say result ≡ barycentric_in (load_of counts.vertices counts.half_edges counts.faces text.now) q }
{
    let mut room = Room::new();
    let accepted = room.load(text, counts)?;
    query::weights_on(&accepted, q)
}

// the gradient at a vertex,
pub fn gradient_in(text: &[u8], counts: Counts, vertex: usize) -> Result<Gradient, Refusal>
    ensures { gradient_says result ≡ gradient_in (load_of counts.vertices counts.half_edges counts.faces text.now) vertex }
{
    let mut room = Room::new();
    let accepted = room.load(text, counts)?;
    let valued = ValuedChart {
        chart: accepted.chart,
    };
    query::gradient_on(&valued, vertex)
}

// the edges of a load's natural neighbours,
// By answers, what the check does not find: that the body has as many half-edges as its head says.
pub fn edges_in(text: &[u8], counts: Counts, q: Place, out: &mut [u64]) -> Result<Listed, Refusal>
    requires { counts.half_edges ≤ length out.old }
    ensures { edges_left result out.new ≡ edges_in (load_of counts.vertices counts.half_edges counts.faces text.now) q out.old }
{
    let mut room = Room::new();
    let accepted = room.load(text, counts)?;
    query::edges_on(&accepted, q, out)
}

// the natural neighbours with their weights,
// By answers, what the check does not find: that the body has as many half-edges as its head says.
pub fn shares_in(
    text: &[u8],
    counts: Counts,
    q: Place,
    owners: &mut [u64],
    weights: &mut [f64],
) -> Result<Listed, Refusal>
    requires owners_room { counts.half_edges ≤ length owners.old }
    requires weights_room { counts.half_edges ≤ length weights.old }
    ensures { shares_left result owners.new weights.new ≡ shares_in (load_of counts.vertices counts.half_edges counts.faces text.now) q owners.old weights.old }
{
    let mut room = Room::new();
    let accepted = room.load(text, counts)?;
    query::shares_on(&accepted, q, owners, weights)
}

// and the value of a load by a method.
pub fn value_in(
    text: &[u8],
    counts: Counts,
    method: Option<Method>,
    q: Place,
) -> Result<f64, Refusal>
    ensures { value_says result ≡ value_in (load_of counts.vertices counts.half_edges counts.faces text.now) (known method) q }
{
    let mut room = Room::new();
    let accepted = room.load(text, counts)?;
    values::value_on(&accepted, method, q, &mut Scratch::new())
}
