// Where a load lies on a chart, by scans from the front (01, "Location"; the Rust's `locate`). The scan of the edges keeps what it finds of
// each half-edge, and the scans after it look that up.
// That a number is below its count, each function asks: a type of a number with its chart would be no plainer.
#![tactic(auto)]

ghost use Rattle.std.specs.Prelude.{◌≡◌, ◌*◌, ◌≤◌, ◌<◌, length, None};
ghost use Rattle.whole.specs.First.{found};
ghost use Rattle.geometry.specs.Plane.{side};
ghost use Rattle.geometry.specs.Grid.{at};
ghost use Rattle.chart.specs.Limits.{most_half_edges};
ghost use Rattle.chart.specs.Chart.{from_of, to_of};
ghost use Rattle.chart.specs.Seen.{seen};
ghost use Rattle.locate.specs.Location.{at_vertex, on_edge, on_even_edge, location_of};
ghost use Rattle.locate.specs.Sides.{SidesOf};

mod sides;

use chart::Chart;
use geometry::GridPlace;
use lines::{Line, Lines};
use sides::Sides;

// The Rust's `PositionInTriangulation`, without its `NoTriangulation`: a load on a chart has a place or is outside. The number of the vertex, half-edge or face
// is 64 bits wide, as all numbers of the public calls are.
#[derive(Clone, Copy, PartialEq, Eq)]
pub enum Location {
    OnVertex(u64),
    OnEdge(u64),
    OnFace(u64),
    OutsideOfConvexHull(u64),
}

// Whether vertex v is at q: the one line of `delaunay::stands_at`, under the words of the location.
fn is_at_vertex(chart: &Chart, q: GridPlace, v: usize) -> bool
    requires { v < (seen chart.now).vertices }
    ensures { result ≡ at_vertex (seen chart.now) (at q) v }
{
    chart.place(v) == q
}

// The lowest vertex at q.
// By answers, what the check does not find: that the closure of `find` computes the definition's test.
fn find_vertex(chart: &Chart, q: GridPlace) -> Option<usize>
    ensures { result ≡ found (at_vertex (seen chart.now) (at q)) (seen chart.now).vertices }
{
    (0..chart.vertex_count()).find(|&v| is_at_vertex(chart, q, v))
}

// Whether q is on the open segment of half-edge h, where s is the side of q. No place is looked up unless s is 0.
#[tactic(auto, unfolding(geometry::specs::Plane::on_open_segment), using(crate::proofs::Scan::tests))]
fn is_on_edge(chart: &Chart, q: GridPlace, h: usize, s: i64) -> bool
    requires below { h < (seen chart.now).half_edges }
    requires seen_at { s ≡ side (from_of (seen chart.now) h) (to_of (seen chart.now) h) (at q) }
    ensures { result ≡ on_edge (seen chart.now) (at q) h }
{
    s == 0 && geometry::is_on_open_segment(chart.from(h), chart.to(h), q)
}

// The lowest even half-edge with q on its open segment. Where there is none, `left` says of each half-edge whether q is strictly left of it.
// A `for` that writes by index, not `find` or `chunks_exact_mut`: it fills `left` on its way, and a proof knows nothing of what an iterator lent.
// By answers, what the check does not find: the two sides that a turn of the loop writes.
#[tactic(auto, using(crate::proofs::Scan::edges))]
fn find_edge(lines: &Lines, q: GridPlace, left: &mut [bool]) -> Option<usize>
    requires { (seen lines.now.chart).half_edges ≤ length left.old }
    ensures value { result ≡ found (on_even_edge (seen lines.now.chart) (at q)) (seen lines.now.chart).half_edges }
    ensures sides { result ≡ None → SidesOf (seen lines.now.chart) (at q) left.new (seen lines.now.chart).half_edges }
{
    let chart = lines.chart;
    for k in 0..chart.half_edge_count() / 2 {
        let h = 2 * k;
        let s = lines.side(q, k);
        if is_on_edge(&chart, q, h, s) {
            return Some(h);
        }
        left[h] = 0 < s;
        left[h + 1] = s < 0;
    }
    None
}

// No half-edge has q on its left yet. Of a fixed size, since there is no heap.
fn no_side() -> [bool; 756]
    ensures { length result ≡ most_half_edges }
{
    [false; 756]
}

// Where q lies: the first scan that finds something answers. For loads on one chart its lines are drawn once.
#[tactic(auto, unfolding(crate::specs::Location::location_of))]
pub fn locate_by(lines: &Lines, q: GridPlace) -> Location
    requires { (seen lines.now.chart).half_edges ≤ most_half_edges }
    ensures { result ≡ location_of (seen lines.now.chart) (at q) }
{
    let chart = lines.chart;
    if let Some(v) = find_vertex(&chart, q) {
        return Location::OnVertex(v as u64);
    }
    let mut left = no_side();
    if let Some(h) = find_edge(lines, q, &mut left) {
        return Location::OnEdge(h as u64);
    }
    let sides = Sides {
        chart,
        q,
        left: &left,
    };
    if let Some(f) = sides.find_face() {
        return Location::OnFace(f as u64);
    }
    Location::OutsideOfConvexHull(sides.find_outer() as u64)
}

// The same for one load.
pub fn locate(chart: &Chart, q: GridPlace) -> Location
    requires { (seen chart.now).half_edges ≤ most_half_edges }
    ensures { result ≡ location_of (seen chart.now) (at q) }
{
    let mut room = [Line::default(); lines::EDGES];
    lines::draw(chart, &mut room);
    let lines = Lines {
        chart: *chart,
        lines: &room,
    };
    locate_by(&lines, q)
}
