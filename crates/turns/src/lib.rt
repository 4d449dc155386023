// A turn about a natural neighbour (01, "Weights"; the inner loop of `get_natural_neighbor_weights`), and the points that it joins.
// That a number is below its count, each function asks: a type of a number with its chart would be no plainer.
#![tactic(auto)]

ghost use Rattle.std.specs.Prelude.{◌≡◌, ◌<◌};
ghost use Rattle.chart.specs.Chart.{from_of};
ghost use Rattle.chart.specs.Seen.{seen};
ghost use Rattle.points.specs.Points.{point_of};
ghost use Rattle.turns.specs.Turn.{cell_corner, face_center, first_side, add_side, area_of, turn_of};

use chart::Chart;
use points::Point2;

// A polygon's positive and negative area, summed apart.
#[derive(Clone, Copy)]
pub struct Sides {
    pub positive: f64,
    pub negative: f64,
}

impl Sides {
    fn first(a: Point2, b: Point2) -> Sides
        ensures { result ≡ first_side a b }
    {
        Sides {
            positive: a.x * b.y,
            negative: a.y * b.x,
        }
    }

    fn add(self, a: Point2, b: Point2) -> Sides
        ensures { result ≡ add_side self a b }
    {
        Sides {
            positive: self.positive + a.x * b.y,
            negative: self.negative + a.y * b.x,
        }
    }

    fn area(self) -> f64
        ensures { result ≡ area_of self }
    {
        self.positive - self.negative
    }
}

// The point where half-edge h starts.
pub fn start_of(chart: &Chart, h: usize) -> Point2
    requires { h < (seen chart.now).half_edges }
    ensures { result ≡ point_of (from_of (seen chart.now) h) }
{
    points::position(chart, chart.origin(h))
}

// The insertion cell's corner for the listed edge h, seen from q.
#[tactic(auto, unfolding(crate::specs::Turn::cell_corner))]
pub fn cell_corner(chart: &Chart, q: Point2, h: usize) -> Point2
    requires { h < (seen chart.now).half_edges }
    ensures { result ≡ cell_corner (seen chart.now) q h }
{
    let from = start_of(chart, h);
    let to = start_of(chart, chart.partner(h));
    points::circumcenter(to - q, from - q, Point2 { x: 0.0, y: 0.0 })
}

// The circumcenter of face f, seen from q.
#[tactic(auto, unfolding(crate::specs::Turn::face_center))]
fn face_center(chart: &Chart, q: Point2, f: usize) -> Point2
    requires { f < (seen chart.now).faces }
    ensures { result ≡ face_center (seen chart.now) q f }
{
    let h = chart.adjacent(f);
    let v0 = start_of(chart, chart.prev(h));
    let v1 = start_of(chart, h);
    let v2 = start_of(chart, chart.next(h));
    points::circumcenter(v0 - q, v1 - q, v2 - q)
}

// The turn about the neighbour where the listed edge `stop` starts, from the half-edge `start`; `before` and `first` are the cell's corners
// for `start`'s and `stop`'s listed edges. On an accepted chart it is there before the steps run out (`Unbroken`); on any other tables they end it.
#[tactic(auto, using(crate::proofs::Steps::steps))]
pub fn turn_about(
    chart: &Chart,
    q: Point2,
    stop: usize,
    first: Point2,
    start: usize,
    before: Point2,
) -> f64
    requires stop_in { stop < (seen chart.now).half_edges }
    requires start_in { start < (seen chart.now).half_edges }
    ensures { result ≡ turn_of (seen chart.now) q stop first start before }
{
    let end = chart.partner(stop);
    let mut edge = start;
    let mut last = before;
    let mut sides = Sides::first(first, before);
    for _ in 0..chart.half_edge_count() {
        let current = face_center(chart, q, chart.face(edge));
        sides = sides.add(last, current);
        edge = chart.partner(chart.next(edge));
        if edge == end {
            return sides.add(current, first).area();
        }
        last = current;
    }
    0.0
}
