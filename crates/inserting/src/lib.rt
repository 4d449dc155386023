// A new bench test: the old chart's text is read, a vertex is put into its tables, and the text of the new chart is written.
#![tactic(auto)]

ghost use Rattle.std.specs.Prelude.{map, ◌≡◌, pos, length};
ghost use Rattle.reading.specs.Reading.{load_of};
ghost use Rattle.writing.specs.Writing.{saved_left, numbers_refusal, write_of};
ghost use Rattle.inserting.specs.Inserting.{Inserts};
ghost use Rattle.inserting.specs.Numbers.{Small};

use chart::Chart;
use geometry::Place;
use ranges::Counts;
use refusal::Refusal;

// A table of unsigned numbers as the file has them, by the index as in `checks::take_over`, where it stands why the two are not one.
// By answers, what the check does not find: that lists with equal elements are equal.
fn hand_over(table: &[usize], numbers: &mut [i64])
    requires same_length { length numbers.old ≡ length table.now }
    requires small { Small table.now }
    ensures { numbers.new ≡ map pos table.now }
{
    for (i, to) in numbers.iter_mut().enumerate() {
        *to = table[i] as i64;
    }
}

// The text of a chart's tables that are known to pass, and its length; or 18.
// Bytes into the buffer that C lends, and no `Display`; the numbers stand in the first elements of the largest chart's rooms: no heap.
#[tactic(auto, using(crate::specs::Numbers::rooms))]
fn put_text(chart: &Chart, text: &mut [u8]) -> Result<u64, Refusal>
    requires passes { numbers_refusal chart.now.vertices.now (map pos chart.now.edges.now) (map pos chart.now.faces.now) ≡ 0 }
    requires small_edges { Small chart.now.edges.now }
    requires small_faces { Small chart.now.faces.now }
    ensures { saved_left result text.new ≡ write_of chart.now.vertices.now (map pos chart.now.edges.now) (map pos chart.now.faces.now) text.old }
{
    let mut edgenumbers = [0i64; chart::EDGE_NUMBERS];
    let mut facenumbers = [0i64; chart::FACES];
    let b = chart.edges.len();
    let f = chart.faces.len();
    hand_over(chart.edges, &mut edgenumbers[..b]);
    hand_over(chart.faces, &mut facenumbers[..f]);
    writing::put_text(chart.vertices, &edgenumbers[..b], &facenumbers[..f], text)
}

// Into the body of a chart whose head has these counts.
// By answers, what the check does not find: the tables' facts, and which text the relation speaks of.
#[tactic(auto, using(crate::specs::Laws::arms))]
pub fn insert_in(
    chart: &[u8],
    counts: Counts,
    q: Place,
    value: i64,
    text: &mut [u8],
) -> Result<u64, Refusal>
    ensures { Inserts (load_of counts.vertices counts.half_edges counts.faces chart.now) q value text.old (saved_left result text.new) }
{
    let mut vertices = [0; chart::VERTEX_NUMBERS];
    let mut edges = [0; chart::EDGE_NUMBERS];
    let mut faces = [0; chart::FACES];
    let tables = insertion::extend(
        chart,
        counts,
        q,
        value,
        &mut vertices,
        &mut edges,
        &mut faces,
    )?;
    put_text(&tables.chart(), text)
}
