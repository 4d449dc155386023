// The public calls for C: numbers and slices only; the crate estivolh_c_c exports them. A call's number is 0 where it is accepted, else the refusal's, and then nothing
// is written. A lent slice shorter than its stated length gets 2 before all else; elements past that length are unchanged.
// Three tables, a method's number and a slice with its stated length are as C lends them: the C interface has no other types.
#![tactic(auto)]

ghost use Rattle.std.specs.Prelude.{◌≡◌};
ghost use Rattle.reading.specs.Reading.{chart_refusal_of};
ghost use Rattle.slices.specs.Lent.{left};
ghost use Rattle.slices.specs.Answers.{weights_left};
ghost use Rattle.estivolh_c.specs.Queries.{locate_called, barycentric_called, edges_left, edges_called, shares_called, gradient_called, interpolate_called};
ghost use Rattle.estivolh_c.specs.Writing.{text_left, write_called, InsertCalled};
ghost use Rattle.estivolh_c.specs.Account.{charge_called, fresh_called, batch_left, batch_called};

use refusal::Refusal;
use slices::BOOK_NUMBERS;

// Whether any bytes are an accepted chart (0), or which of the refusals 3 to 11 meets them first.
#[unsafe(no_mangle)]
pub extern "C" fn estivolh_check(chart: &[u8]) -> u64
    ensures { result ≡ chart_refusal_of chart.now }
{
    match estivolh::check(chart) {
        Ok(()) => 0,
        Err(refusal) => refusal.number(),
    }
}

// Where the load at (x, y) lies: kind (1 vertex, 2 edge, 3 face, 4 outside) and number.
#[unsafe(no_mangle)]
pub extern "C" fn estivolh_locate(chart: &[u8], x: i64, y: i64, position: &mut [u64]) -> u64
    ensures { left result position.new ≡ locate_called chart.now x y position.old }
{
    if position.len() < 2 {
        return Refusal::Slices.number();
    }
    slices::put_position(estivolh::locate(chart, x, y), position)
}

// The barycentric weights of the load at (x, y): 1 to 3 vertices, as many weights, and their number.
#[unsafe(no_mangle)]
pub extern "C" fn estivolh_barycentric_weights(
    chart: &[u8],
    x: i64,
    y: i64,
    vertices: &mut [u64],
    weights: &mut [f64],
    found: &mut [u64],
) -> u64
    ensures { weights_left result vertices.new weights.new found.new ≡ barycentric_called chart.now x y vertices.old weights.old found.old }
{
    if vertices.len() < 3 || weights.len() < 3 || found.is_empty() {
        return Refusal::Slices.number();
    }
    let answer = estivolh::barycentric_weights(chart, x, y);
    slices::put_barycentric(answer, vertices, weights, found)
}

// The natural neighbour edges of the load at (x, y); their number and that of the faces opened.
#[unsafe(no_mangle)]
pub extern "C" fn estivolh_natural_neighbor_edges(
    chart: &[u8],
    x: i64,
    y: i64,
    edges: &mut [u64],
    found: &mut [u64],
) -> u64
    ensures { edges_left result edges.new found.new ≡ edges_called chart.now x y edges.old found.old }
{
    if found.len() < 2 {
        return Refusal::Slices.number();
    }
    let answer = estivolh::natural_neighbor_edges(chart, x, y, edges);
    slices::put_tally(answer, found)
}

// The natural neighbour weights of the load at (x, y): vertices and weights; their number and that of the faces opened.
#[unsafe(no_mangle)]
pub extern "C" fn estivolh_natural_neighbor_weights(
    chart: &[u8],
    x: i64,
    y: i64,
    vertices: &mut [u64],
    weights: &mut [f64],
    found: &mut [u64],
) -> u64
    ensures { weights_left result vertices.new weights.new found.new ≡ shares_called chart.now x y vertices.old weights.old found.old }
{
    if found.len() < 2 {
        return Refusal::Slices.number();
    }
    let answer = estivolh::natural_neighbor_weights(chart, x, y, vertices, weights);
    slices::put_tally(answer, found)
}

// The gradient at a vertex: its components along x and y.
#[unsafe(no_mangle)]
pub extern "C" fn estivolh_estimate_gradient(chart: &[u8], vertex: u64, gradient: &mut [f64]) -> u64
    ensures { left result gradient.new ≡ gradient_called chart.now vertex gradient.old }
{
    if gradient.len() < 2 {
        return Refusal::Slices.number();
    }
    slices::put_gradient(estivolh::estimate_gradient(chart, vertex), gradient)
}

// The value of the load at (x, y), by method 1, 2 or 3.
#[unsafe(no_mangle)]
pub extern "C" fn estivolh_interpolate(
    chart: &[u8],
    method: i64,
    x: i64,
    y: i64,
    value: &mut [f64],
) -> u64
    ensures { left result value.new ≡ interpolate_called chart.now method x y value.old }
{
    if value.is_empty() {
        return Refusal::Slices.number();
    }
    slices::put_value(estivolh::interpolate(chart, method, x, y), value)
}

// What a value costs.
#[unsafe(no_mangle)]
pub extern "C" fn estivolh_charge(value: f64, charge: &mut [u64]) -> u64
    ensures { left result charge.new ≡ charge_called value charge.old }
{
    if charge.is_empty() {
        return Refusal::Slices.number();
    }
    slices::put_number(estivolh::charge(value), charge)
}

// A fresh book of so many sections.
#[unsafe(no_mangle)]
pub extern "C" fn estivolh_fresh(sections: u64, book: &mut [u64]) -> u64
    ensures { left result book.new ≡ fresh_called sections book.old }
{
    if book.len() < BOOK_NUMBERS {
        return Refusal::Slices.number();
    }
    slices::put_returned(estivolh::fresh(sections), book)
}

// A batch of entries on the book in a slice, under a chart: the new book, and an answer for each entry.
#[unsafe(no_mangle)]
pub extern "C" fn estivolh_batch(
    book: &mut [u64],
    chart: &[u8],
    entries: &[i64],
    answers: &mut [u64],
) -> u64
    ensures { batch_left result book.new answers.new ≡ batch_called book.old chart.now entries.now answers.old }
{
    if book.len() < BOOK_NUMBERS {
        return Refusal::Slices.number();
    }
    let before = slices::read_book(book);
    let after = estivolh::batch(before, chart, entries, answers);
    slices::put_returned(after, book)
}

// A chart's tables written as chart text, and the text's length.
#[unsafe(no_mangle)]
pub extern "C" fn estivolh_write_chart(
    vertices: &[i64],
    edges: &[i64],
    faces: &[i64],
    text: &mut [u8],
    found: &mut [u64],
) -> u64
    ensures { text_left result text.new found.new ≡ write_called vertices.now edges.now faces.now text.old found.old }
{
    if found.is_empty() {
        return Refusal::Slices.number();
    }
    let answer = estivolh::write_chart(vertices, edges, faces, text);
    slices::put_number(answer, found)
}

// A new bench test put into a chart: the new chart's text into `text`, and how long it is.
#[unsafe(no_mangle)]
pub extern "C" fn estivolh_insert(
    chart: &[u8],
    x: i64,
    y: i64,
    value: i64,
    text: &mut [u8],
    found: &mut [u64],
) -> u64
    ensures { InsertCalled chart.now x y value text.old found.old (text_left result text.new found.new) }
{
    if found.is_empty() {
        return Refusal::Slices.number();
    }
    let answer = estivolh::insert(chart, x, y, value, text);
    slices::put_number(answer, found)
}
