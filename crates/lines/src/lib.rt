// The lines of a chart's edges, worked out once for all loads that are located on it: the side of a load then costs two products, and no
// place is looked up (01, "Side and circle").
#![tactic(auto)]

ghost use Rattle.std.specs.Prelude.{◌≡◌, ◌/◌, ◌≤◌, ◌<◌, length};
ghost use Rattle.chart.specs.Seen.{seen};
ghost use Rattle.lines.specs.Lines.{line_of, Drawn};

mod drawn;

use chart::Chart;
pub use drawn::Lines;
use geometry::Place;

// The line of a half-edge: its vector, and what the side of a load takes off.
#[derive(Clone, Copy, Default)]
pub struct Line {
    pub vector: Place,
    pub offset: i64,
}

// How many edges the largest chart has, and so the array of their lines: no heap.
pub const EDGES: usize = 378;

// The line of half-edge h. It asks that h is below its count: a type of a number with its chart would be no plainer.
fn line_of(chart: &Chart, h: usize) -> Line
    requires { h < (seen chart.now).half_edges }
    ensures { result ≡ line_of (seen chart.now) h }
{
    let from = chart.from(h);
    let vector = geometry::vector(from, chart.to(h));
    let offset = geometry::cross(vector, from.into());
    Line { vector, offset }
}

// The lines of all edges, into the first elements of a lent slice.
pub fn draw(chart: &Chart, lines: &mut [Line])
    requires { (seen chart.now).half_edges / 2 ≤ length lines.old }
    ensures { Drawn (seen chart.now) lines.new ((seen chart.now).half_edges / 2) }
{
    let n = chart.half_edge_count() / 2;
    for (k, line) in lines[..n].iter_mut().enumerate() {
        *line = line_of(chart, 2 * k);
    }
}
