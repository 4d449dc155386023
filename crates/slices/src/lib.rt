// Answers and books in lent slices, for the calls exported for C: each function writes what an answer says into the first elements and returns its number, 0
// where it is accepted; a refusal writes nothing.
// How long a lent slice is at least stays a clause: C lends the slice, and the exported call tests its length.
#![tactic(auto)]

ghost use Rattle.std.specs.Prelude.{◌≡◌, [], ◌∷◌, ◌+◌, ◌≤◌, length, take, drop};
ghost use Rattle.book.specs.Books.{section_max};
ghost use Rattle.book.specs.Returned.{returned_of};
ghost use Rattle.book.specs.declared.Book.{Book};
ghost use Rattle.charge.specs.Charging.{charge_says};
ghost use Rattle.query.specs.Gradient.{gradient_says};
ghost use Rattle.query.specs.Location.{position_says};
ghost use Rattle.query.specs.Natural.{neighbors_say};
ghost use Rattle.values.specs.Value.{value_says};
ghost use Rattle.weights.specs.Barycentric.{weights_say};
ghost use Rattle.writing.specs.Writing.{written_says};
ghost use Rattle.accounts.specs.Batch.{overlay};
ghost use Rattle.slices.specs.Lent.{left};
ghost use Rattle.slices.specs.Books.{book_numbers, book_at, numbers_of};
ghost use Rattle.slices.specs.Answers.{place_numbers, located_left, weights_left, barycentric_left, tally_left, slope_left, value_left, cost_left, length_left, returned_left};

use book::Book;
use gradient::Gradient;
use locate::Location;
use query::Listed;
use refusal::Refusal;
use weights::BarycentricWeights;

// A book as numbers: sections, 16 wears, 16 bend counts, retired wear.
const WEAR_AT: usize = 1;

const BENDS_AT: usize = 17;

const RETIRED_AT: usize = 33;

pub const BOOK_NUMBERS: usize = 34;

const SECTION_MAX: usize = 16;

// A list into the first elements of a slice.
fn put<T: Copy>(list: &[T], out: &mut [T])
    requires { length list.now ≤ length out.old }
    ensures { out.new ≡ overlay list.now out.old }
{
    out[..list.len()].copy_from_slice(list);
}

// The 16 numbers from place `at` on.
fn sixteen(numbers: &[u64], at: usize) -> [u64; SECTION_MAX]
    requires { at + section_max ≤ length numbers.now }
    ensures { result ≡ take section_max (drop at numbers.now) }
{
    <[u64; SECTION_MAX]>::try_from(&numbers[at..at + SECTION_MAX]).unwrap()
}

// The book whose numbers stand in a slice.
pub fn read_book(numbers: &[u64]) -> Book
    requires { book_numbers ≤ length numbers.now }
    ensures { result ≡ book_at numbers.now }
{
    let wear = sixteen(numbers, WEAR_AT);
    let bends = sixteen(numbers, BENDS_AT);
    Book {
        sections: numbers[0],
        wear,
        bends,
        retired: numbers[RETIRED_AT],
    }
}

// A book's numbers into a slice.
fn write_book(book: Book, out: &mut [u64])
    requires { book_numbers ≤ length out.old }
    ensures { out.new ≡ overlay (numbers_of book) out.old }
{
    out[..WEAR_AT].copy_from_slice(&[book.sections]);
    out[WEAR_AT..BENDS_AT].copy_from_slice(&book.wear);
    out[BENDS_AT..RETIRED_AT].copy_from_slice(&book.bends);
    out[RETIRED_AT..BOOK_NUMBERS].copy_from_slice(&[book.retired]);
}

// What a call returned: its book into the slice, unless it was refused.
pub fn put_returned(returned: Result<Book, Refusal>, out: &mut [u64]) -> u64
    requires { book_numbers ≤ length out.old }
    ensures { (beside : Book) → left result out.new ≡ returned_left (returned_of returned beside) out.old }
{
    match returned {
        Ok(book) => write_book(book, out),
        Err(reason) => return reason.number(),
    }
    0
}

// Kind and number of a location.
fn place_numbers(place: Location) -> [u64; 2]
    ensures { result ≡ place_numbers place }
{
    match place {
        Location::OnVertex(v) => [1, v],
        Location::OnEdge(h) => [2, h],
        Location::OnFace(f) => [3, f],
        Location::OutsideOfConvexHull(h) => [4, h],
    }
}

pub fn put_position(found: Result<Location, Refusal>, out: &mut [u64]) -> u64
    requires { 2 ≤ length out.old }
    ensures { left result out.new ≡ located_left (position_says found) out.old }
{
    match found {
        Ok(place) => put(&place_numbers(place), out),
        Err(refusal) => return refusal.number(),
    }
    0
}

// Vertices, their weights and how many they are.
fn put_weights(
    owners: &[u64],
    list: &[f64],
    vertices: &mut [u64],
    weights: &mut [f64],
    found: &mut [u64],
)
    requires owners_fit { length owners.now ≤ length vertices.old }
    requires weights_fit { length list.now ≤ length weights.old }
    requires found_fits { 1 ≤ length found.old }
    ensures { weights_left 0 vertices.new weights.new found.new ≡ weights_left 0 (overlay owners.now vertices.old) (overlay list.now weights.old) (overlay (length owners.now ∷ []) found.old) }
{
    put(owners, vertices);
    put(list, weights);
    put(&[owners.len() as u64], found);
}

// What the barycentric weights' answer says.
pub fn put_barycentric(
    answer: Result<BarycentricWeights, Refusal>,
    vertices: &mut [u64],
    weights: &mut [f64],
    found: &mut [u64],
) -> u64
    requires vertices_fit { 3 ≤ length vertices.old }
    requires weights_fit { 3 ≤ length weights.old }
    requires found_fits { 1 ≤ length found.old }
    ensures { weights_left result vertices.new weights.new found.new ≡ barycentric_left (weights_say answer) vertices.old weights.old found.old }
{
    match answer {
        Ok(BarycentricWeights::OneVertex(u)) => {
            put_weights(&[u.vertex], &[u.weight], vertices, weights, found)
        }
        Ok(BarycentricWeights::TwoWeights(u, v)) => {
            let owners = [u.vertex, v.vertex];
            put_weights(&owners, &[u.weight, v.weight], vertices, weights, found)
        }
        Ok(BarycentricWeights::ThreeWeights(u, v, w)) => {
            let owners = [u.vertex, v.vertex, w.vertex];
            let list = [u.weight, v.weight, w.weight];
            put_weights(&owners, &list, vertices, weights, found)
        }
        Err(refusal) => return refusal.number(),
    }
    0
}

// How many edges or weights a natural call wrote, and how many faces it opened.
pub fn put_tally(answer: Result<Listed, Refusal>, out: &mut [u64]) -> u64
    requires { 2 ≤ length out.old }
    ensures { left result out.new ≡ tally_left (neighbors_say answer) out.old }
{
    match answer {
        Ok(listed) => put(&[listed.count, listed.opened], out),
        Err(refusal) => return refusal.number(),
    }
    0
}

// The two components of a gradient.
pub fn put_gradient(answer: Result<Gradient, Refusal>, out: &mut [f64]) -> u64
    requires { 2 ≤ length out.old }
    ensures { left result out.new ≡ slope_left (gradient_says answer) out.old }
{
    match answer {
        Ok(slope) => put(&[slope.x, slope.y], out),
        Err(refusal) => return refusal.number(),
    }
    0
}

// A value. One generic function of this and `put_number` would say its two cases apart, and each of their three clauses would be a lemma over it: no plainer.
pub fn put_value(answer: Result<f64, Refusal>, out: &mut [f64]) -> u64
    requires { 1 ≤ length out.old }
    ensures { left result out.new ≡ value_left (value_says answer) out.old }
{
    match answer {
        Ok(value) => put(&[value], out),
        Err(refusal) => return refusal.number(),
    }
    0
}

// A charge, or the length of a text.
pub fn put_number(answer: Result<u64, Refusal>, out: &mut [u64]) -> u64
    requires { 1 ≤ length out.old }
    ensures charge { left result out.new ≡ cost_left (charge_says answer) out.old }
    ensures length_of_text { left result out.new ≡ length_left (written_says answer) out.old }
{
    match answer {
        Ok(n) => put(&[n], out),
        Err(refusal) => return refusal.number(),
    }
    0
}
