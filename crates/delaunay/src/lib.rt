// Refusals 8 to 10: places, turns and rim (01, "Where a call can be turned down"). The definition of 11 stands beside theirs; its code is in `across`.
// That a number is below its count, each function asks: a type of a number with its chart would be no plainer.
#![tactic(auto)]

ghost use Rattle.std.specs.Prelude.{◌≡◌, ◌<◌};
ghost use Rattle.std.specs.Int.Signed.{lt_z};
ghost use Rattle.whole.specs.First.{some};
ghost use Rattle.geometry.specs.Plane.{Near, cross_of};
ghost use Rattle.geometry.specs.Grid.{at};
ghost use Rattle.chart.specs.Seen.{seen};
ghost use Rattle.delaunay.specs.Buckets.{bucket_of};
ghost use Rattle.delaunay.specs.Delaunay.{stands_at, lies_left, shares_place, not_left, overhung};

use chart::Chart;
use geometry::{GridPlace, Place};

// How many buckets the places are sorted into: a prime, so that those of a lattice spread.
const BUCKETS: usize = 509;

// The weight of y beside x: as far as a row of a lattice goes.
const SPREAD: i64 = 32;

// What lifts the sum from the grid to numbers that are not negative.
const LIFT: i64 = (SPREAD + 1) * geometry::GRID;

// Whether vertex w is at the place p.
fn stands_at(chart: &Chart, p: GridPlace, w: usize) -> bool
    requires { w < (seen chart.now).vertices }
    ensures { result ≡ stands_at (seen chart.now).place (at p) w }
{
    chart.place(w) == p
}

// Whether a vertex of a number below v is at the place p.
#[tactic(auto, using(whole::proofs::Scans::scans))]
fn some_below_at(chart: &Chart, p: GridPlace, v: usize) -> bool
    requires { v < (seen chart.now).vertices }
    ensures { result ≡ some (stands_at (seen chart.now).place (at p)) v }
{
    (0..v).any(|w| stands_at(chart, p, w))
}

// The bucket of a place of the grid.
fn bucket_of(p: GridPlace) -> usize
    ensures { result ≡ bucket_of (at p) }
{
    chart::to_unsigned(p.x + p.y * SPREAD + LIFT) % BUCKETS
}

// 8: two vertices at one place. Those at one place have one bucket, so the vertices below v are scanned only where its bucket has one.
// By answers, what the check does not find: the step of the loop where its branches join.
pub fn some_share_place(chart: &Chart) -> bool
    ensures { result ≡ some (shares_place (seen chart.now)) (seen chart.now).vertices }
{
    let mut met = [false; BUCKETS]; // no heap, so no map
    for v in 0..chart.vertex_count() {
        let p = chart.place(v);
        let b = bucket_of(p);
        if met[b] && some_below_at(chart, p, v) {
            return true;
        }
        met[b] = true;
    }
    false
}

// Whether the product of u and the place of vertex v is above k. `Near u` stands here as in `geometry`, which says why.
fn is_past(chart: &Chart, u: Place, k: i64, v: usize) -> bool
    requires near { Near u }
    requires below { v < (seen chart.now).vertices }
    ensures { result ≡ lt_z k (cross_of u ((seen chart.now).place v)) }
{
    k < geometry::cross(u, chart.place(v).into())
}

// Whether some vertex is strictly left of a to b: of the vector u from a, the side of q is u × q less u × a, so u × a is worked out once.
// By answers, what the check does not find: a side by one product less.
fn some_left(chart: &Chart, a: GridPlace, b: GridPlace) -> bool
    ensures { result ≡ some (lies_left (seen chart.now).place (at a) (at b)) (seen chart.now).vertices }
{
    let u = geometry::vector(a, b);
    let k = geometry::cross(u, a.into());
    (0..chart.vertex_count()).any(|v| is_past(chart, u, k, v))
}

// Whether an inner face's corners don't turn strictly left.
fn is_not_left(chart: &Chart, f: usize) -> bool
    requires { f < (seen chart.now).faces }
    ensures { result ≡ not_left (seen chart.now) f }
{
    if f == 0 {
        return false;
    }
    let h = chart.adjacent(f);
    let a = chart.from(chart.prev(h));
    let b = chart.from(h);
    let c = chart.from(chart.next(h));
    !geometry::is_on_left_side(a, b, c)
}

// Whether a vertex is strictly left of the outer half-edge h.
fn is_overhung(chart: &Chart, h: usize) -> bool
    requires { h < (seen chart.now).half_edges }
    ensures { result ≡ overhung (seen chart.now) h }
{
    chart.face(h) == 0 && some_left(chart, chart.from(h), chart.to(h))
}

// 9: an inner face whose corners don't turn strictly left.
// By answers, what the check does not find: a test that ends early, in a scan.
pub fn some_not_left(chart: &Chart) -> bool
    ensures { result ≡ some (not_left (seen chart.now)) (seen chart.now).faces }
{
    (0..chart.face_count()).any(|f| is_not_left(chart, f))
}

// 10: a vertex strictly left of an outer half-edge.
#[tactic(auto, using(whole::proofs::Scans::scans))]
pub fn some_overhung(chart: &Chart) -> bool
    ensures { result ≡ some (overhung (seen chart.now)) (seen chart.now).half_edges }
{
    (0..chart.half_edge_count()).any(|h| is_overhung(chart, h))
}
