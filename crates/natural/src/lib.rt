// Natural neighbour weights from the list of natural neighbour edges (01, "Weights"; `get_natural_neighbor_weights`).
// Edges, owners and weights are slices side by side, as C lends them; they are written by index, since a proof knows nothing of what
// `iter_mut().zip` lent.
#![tactic(auto)]

ghost use Rattle.std.specs.Prelude.{◌≡◌, ◌++◌, map, ℕ, ◌≤◌, ◌<◌, length, take, drop, get_or};
ghost use Rattle.geometry.specs.Grid.{at};
ghost use Rattle.chart.specs.Tables.{rows, origin_of};
ghost use Rattle.chart.specs.Seen.{seen};
ghost use Rattle.points.specs.Floats.{◌/f◌};
ghost use Rattle.natural.specs.Natural.{cell_shares, two_shares, shares_of, outcome, natural_weights_of};
ghost use Rattle.natural.specs.Arrays.{corner_x, corner_y, Holds};

mod listed;

use geometry::GridPlace;
pub use listed::EdgeList;
use points::Point2;

// The insertion cell into xs and ys.
fn insertion_cell(list: &EdgeList, q: Point2, xs: &mut [f64], ys: &mut [f64])
    requires xs_length { length xs.old ≡ length list.now.edges.now }
    requires ys_length { length ys.old ≡ length list.now.edges.now }
    ensures xs { Holds (corner_x (seen list.now.chart) q list.now.edges.now) 0 (length list.now.edges.now) xs.new }
    ensures ys { Holds (corner_y (seen list.now.chart) q list.now.edges.now) 0 (length list.now.edges.now) ys.new }
{
    for (i, h) in list.edges.iter().enumerate() {
        let corner = turns::cell_corner(&list.chart, q, *h);
        xs[i] = corner.x;
        ys[i] = corner.y;
    }
}

// Each area divided by their sum.
#[tactic(auto, using(crate::proofs::Steps::put_float))]
fn divide_all(areas: &mut [f64], total: f64)
    ensures { areas.new ≡ map (λ area. area /f total) areas.old }
{
    for area in areas.iter_mut() {
        *area = *area / total;
    }
}

// A turn about each neighbour, from the cell's corners in xs and ys. Corner i is last read at turn i, so area i takes the place of its x:
// two arrays of numbers, since one of points would leave the areas with gaps.
// By answers, what the check does not find: the corner read back, and one area more.
fn turn_all(list: &EdgeList, q: Point2, xs: &mut [f64], ys: &[f64])
    requires some { 0 < length list.now.edges.now }
    requires xs_length { length xs.old ≡ length list.now.edges.now }
    requires ys_length { length ys.now ≡ length list.now.edges.now }
    requires xs { Holds (corner_x (seen list.now.chart) q list.now.edges.now) 0 (length list.now.edges.now) xs.old }
    requires ys { Holds (corner_y (seen list.now.chart) q list.now.edges.now) 0 (length list.now.edges.now) ys.now }
    ensures { xs.new ≡ cell_shares (seen list.now.chart) q list.now.edges.now }
{
    let k = list.edges.len() - 1;
    let mut edge = list.edges[k];
    let mut last = Point2 { x: xs[k], y: ys[k] };
    let mut total = 0.0;
    for (i, stop) in list.edges.iter().enumerate() {
        let first = Point2 { x: xs[i], y: ys[i] };
        let area = turns::turn_about(&list.chart, q, *stop, first, edge, last);
        xs[i] = area;
        total = total + area;
        last = first;
        edge = *stop;
    }
    divide_all(xs, total);
}

// The weights of two listed edges' starts.
#[tactic(auto, using(crate::specs::Arrays::two_only))]
fn two_shares(list: &EdgeList, q: Point2, xs: &mut [f64])
    requires two { length list.now.edges.now ≡ 2 }
    requires xs_length { length xs.old ≡ 2 }
    ensures { xs.new ≡ two_shares (seen list.now.chart) q list.now.edges.now }
{
    let v0 = turns::start_of(&list.chart, list.edges[0]);
    let v1 = turns::start_of(&list.chart, list.edges[1]);
    let (w0, w1) = weights::two_point_interpolation(v0, v1, q);
    xs[0] = w0;
    xs[1] = w1;
}

// The weights of the listed edges' starts into the first elements of xs; what ys holds then is left open. For calls that need no copy
// of their own.
#[tactic(auto, unfolding(crate::specs::Natural::shares_of))]
pub fn natural_shares(list: &EdgeList, q: GridPlace, xs: &mut [f64], ys: &mut [f64])
    requires xs_room { length list.now.edges.now ≤ length xs.old }
    requires ys_room { length list.now.edges.now ≤ length ys.old }
    ensures { xs.new ≡ shares_of (seen list.now.chart) (at q) list.now.edges.now ++ drop (length list.now.edges.now) xs.old }
{
    let n = list.edges.len();
    let p = Point2::from(q);
    let shares = &mut xs[..n];
    if n == 1 {
        shares[0] = 1.0;
    } else if n == 2 {
        two_shares(list, p, shares);
    } else if 2 < n {
        let heights = &mut ys[..n];
        insertion_cell(list, p, shares, heights);
        turn_all(list, p, shares, heights);
    }
}

// The listed half-edges' starts, each in its half-edge's place (so no `From`). It takes the one table: a chart would ask more than it reads.
#[tactic(auto, using(crate::proofs::Steps::put_over, crate::proofs::Steps::unput_number))]
pub fn to_origins(edges: &[usize], list: &mut [usize])
    requires { (k : ℕ) → k < length list.old → get_or list.old k 0 < rows edges.now }
    ensures { list.new ≡ map (origin_of edges.now) list.old }
{
    for h in list.iter_mut() {
        *h = chart::origin_of(edges, *h);
    }
}

// The listed edges' starts and their shares into the first elements of the caller's slices: each element is written once.
#[tactic(auto, using(crate::proofs::Steps::put_number, crate::proofs::Steps::put_share))]
fn copy_out(list: &EdgeList, shares: &[f64], owners: &mut [u64], weights: &mut [f64])
    requires shares_length { length shares.now ≡ length list.now.edges.now }
    requires owners_room { length list.now.edges.now ≤ length owners.old }
    requires weights_room { length list.now.edges.now ≤ length weights.old }
    ensures owners { owners.new ≡ map (seen list.now.chart).origin list.now.edges.now ++ drop (length list.now.edges.now) owners.old }
    ensures weights { weights.new ≡ shares.now ++ drop (length list.now.edges.now) weights.old }
{
    for (i, h) in list.edges.iter().enumerate() {
        owners[i] = list.chart.origin(*h) as u64;
        weights[i] = shares[i];
    }
}

// The listed edges' starts with their weights, worked out in arrays of the call's own, of a fixed size, since there is no heap; they are copied out at the end.
#[tactic(auto, using(crate::proofs::Steps::settles))]
pub fn natural_weights(list: &EdgeList, q: GridPlace, owners: &mut [u64], weights: &mut [f64])
    requires owners_room { length list.now.edges.now ≤ length owners.old }
    requires weights_room { length list.now.edges.now ≤ length weights.old }
    ensures { outcome owners.new weights.new ≡ natural_weights_of (seen list.now.chart) (at q) list.now.edges.now owners.old weights.old }
{
    let mut shares = [0.0; 756];
    natural_shares(list, q, &mut shares, &mut [0.0; 756]);
    copy_out(list, &shares[..list.edges.len()], owners, weights);
}
