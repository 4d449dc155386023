// The public calls of Estivolh. Each that needs a chart takes its bytes, or to write it back its tables, and checks them; none asks anything of its caller.
// C lends tables, slices and a method's number so: three slices are no `Chart` before they are checked, and a number is a `Method` only here.
#![tactic(auto)]

ghost use Rattle.std.specs.Prelude.{◌≡◌, ◌≤◌, ◌/◌, length};
ghost use Rattle.refusal.specs.Number.{refusal_of};
ghost use Rattle.reading.specs.Reading.{chart_in, chart_refusal_of};
ghost use Rattle.query.specs.Gradient.{gradient_says, estimate_of};
ghost use Rattle.query.specs.Natural.{edges_left, natural_edges_of, shares_left, natural_shares_of};
ghost use Rattle.values.specs.Value.{value_says};
ghost use Rattle.query.specs.Value.{interpolate_of};
ghost use Rattle.charge.specs.Charging.{charge_says, charge_of};
ghost use Rattle.book.specs.Books.{zero_book, fresh_book};
ghost use Rattle.book.specs.Returned.{returned_of};
ghost use Rattle.entries.specs.Entry.{entry_width};
ghost use Rattle.accounts.specs.Batch.{bad_slices, outcome, batch_of};
ghost use Rattle.estivolh.specs.Account.{queries, batch_in};
ghost use Rattle.query.specs.Location.{position_says, locate_of};
ghost use Rattle.weights.specs.Barycentric.{weights_say};
ghost use Rattle.query.specs.Weights.{barycentric_of};
ghost use Rattle.writing.specs.Writing.{saved_left, write_of};
ghost use Rattle.inserting.specs.Inserting.{InsertOf};

use accepted::Room;
use book::{Book, CheckedBook};
use entries::ENTRY_WIDTH;
use geometry::Place;
pub use gradient::Gradient;
pub use locate::Location;
pub use query::Listed;
pub use refusal::Refusal;
use values::Method;
pub use weights::BarycentricWeights;

// Whether any bytes are an accepted chart, or which of the refusals 3 to 11 meets them first.
#[tactic(auto, unfolding(reading::specs::Reading::chart_in))]
pub fn check(chart: &[u8]) -> Result<(), Refusal>
    ensures { refusal_of result ≡ chart_refusal_of chart.now }
{
    let counts = reading::read_head(chart)?;
    bodies::body_refusal(chart, counts)
}

// Where the load at (x, y) lies on a chart. The next call is its twin, of two lines: a closure for the question would owe more clauses than it saves.
#[tactic(auto, unfolding(reading::specs::Reading::chart_in))]
pub fn locate(chart: &[u8], x: i64, y: i64) -> Result<Location, Refusal>
    ensures { position_says result ≡ locate_of chart.now x y }
{
    let counts = reading::read_head(chart)?;
    bodies::locate_in(chart, counts, Place { x, y })
}

// The barycentric weights of the load at (x, y) on a chart.
#[tactic(auto, unfolding(reading::specs::Reading::chart_in))]
pub fn barycentric_weights(chart: &[u8], x: i64, y: i64) -> Result<BarycentricWeights, Refusal>
    ensures { weights_say result ≡ barycentric_of chart.now x y }
{
    let counts = reading::read_head(chart)?;
    bodies::weights_in(chart, counts, Place { x, y })
}

// The gradient at a vertex of a chart.
#[tactic(auto, unfolding(reading::specs::Reading::chart_in))]
pub fn estimate_gradient(chart: &[u8], vertex: u64) -> Result<Gradient, Refusal>
    ensures { gradient_says result ≡ estimate_of chart.now vertex }
{
    let counts = reading::read_head(chart)?;
    bodies::gradient_in(chart, counts, vertex as usize)
}

// The natural neighbour edges of the load at (x, y) on a chart, into the first elements of a lent slice.
pub fn natural_neighbor_edges(
    chart: &[u8],
    x: i64,
    y: i64,
    out: &mut [u64],
) -> Result<Listed, Refusal>
    ensures { edges_left result out.new ≡ natural_edges_of chart.now x y out.old }
{
    let counts = reading::read_head(chart)?;
    if out.len() < counts.half_edges {
        return Err(Refusal::Slices);
    }
    bodies::edges_in(chart, counts, Place { x, y }, out)
}

// The natural neighbour weights of the load at (x, y) on a chart: vertices and weights into the first elements of the lent slices.
pub fn natural_neighbor_weights(
    chart: &[u8],
    x: i64,
    y: i64,
    owners: &mut [u64],
    weights: &mut [f64],
) -> Result<Listed, Refusal>
    ensures { shares_left result owners.new weights.new ≡ natural_shares_of chart.now x y owners.old weights.old }
{
    let counts = reading::read_head(chart)?;
    if owners.len() < counts.half_edges || weights.len() < counts.half_edges {
        return Err(Refusal::Slices);
    }
    bodies::shares_in(chart, counts, Place { x, y }, owners, weights)
}

// The value of the load at (x, y) on a chart, by method 1, 2 or 3.
#[tactic(auto, unfolding(reading::specs::Reading::chart_in))]
pub fn interpolate(chart: &[u8], method: i64, x: i64, y: i64) -> Result<f64, Refusal>
    ensures { value_says result ≡ interpolate_of chart.now method x y }
{
    let counts = reading::read_head(chart)?;
    bodies::value_in(chart, counts, Method::new(method), Place { x, y })
}

// What a value costs.
pub fn charge(value: f64) -> Result<u64, Refusal>
    ensures { charge_says result ≡ charge_of value }
{
    charge::charge(value)
}

// A fresh book of so many sections, or refusal 1.
pub fn fresh(sections: u64) -> Result<Book, Refusal>
    ensures { returned_of result (zero_book 0) ≡ fresh_book sections }
{
    book::fresh(sections)
}

// Whether 2 meets an entry slice and an answer slice of these lengths.
fn bad_slices(numbers: usize, room: usize) -> bool
    ensures { result ≡ bad_slices numbers room }
{
    numbers % ENTRY_WIDTH != 0 || room < numbers / ENTRY_WIDTH
}

// Under a chart, of a book and slices that neither 1 nor 2 meets. The clause is a bound of two lent slices, that this one caller tests.
#[tactic(auto, unfolding(reading::specs::Reading::chart_in))]
fn batch_under(
    chart: &[u8],
    book: CheckedBook,
    entries: &[i64],
    answers: &mut [u64],
) -> Result<Book, Refusal>
    requires { length entries.now / entry_width ≤ length answers.old }
    ensures { outcome (returned_of result book.book) answers.new ≡ batch_in (chart_in chart.now) book.book entries.now answers.old }
{
    let counts = reading::read_head(chart)?;
    let mut room = Room::new();
    let accepted = room.load(chart, counts)?;
    let after = batch::work(&accepted, book, entries, answers);
    Ok(after.book)
}

// A batch of entries on a book, under a chart that is checked once: the new book, and an answer for each entry.
#[tactic(auto, using(crate::proofs::Laws::batches))]
pub fn batch(
    book: Book,
    chart: &[u8],
    entries: &[i64],
    answers: &mut [u64],
) -> Result<Book, Refusal>
    ensures { outcome (returned_of result book) answers.new ≡ batch_of queries book chart.now entries.now answers.old }
{
    let checked = CheckedBook::new(book)?;
    if bad_slices(entries.len(), answers.len()) {
        return Err(Refusal::Slices);
    }
    batch_under(chart, checked, entries, answers)
}

// A chart's tables, as numbers in file order, written as chart text into a lent buffer: how long it is.
pub fn write_chart(
    vertices: &[i64],
    edges: &[i64],
    faces: &[i64],
    text: &mut [u8],
) -> Result<u64, Refusal>
    ensures { saved_left result text.new ≡ write_of vertices.now edges.now faces.now text.old }
{
    writing::write_chart(vertices, edges, faces, text)
}

// A new bench test at (x, y) with its value put into a chart: the new chart's text into a lent buffer, and how long it is.
#[tactic(auto, using(crate::proofs::Laws::insertions), unfolding(reading::specs::Reading::chart_in))]
pub fn insert(chart: &[u8], x: i64, y: i64, value: i64, text: &mut [u8]) -> Result<u64, Refusal>
    ensures { InsertOf chart.now x y value text.old (saved_left result text.new) }
{
    let counts = reading::read_head(chart)?;
    inserting::insert_in(chart, counts, Place { x, y }, value, text)
}
