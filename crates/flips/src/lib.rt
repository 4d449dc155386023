// The search for natural neighbours (01, "Weights"; `inspect_flips`).
// That a number is below its count, each function asks: a type of a number with its chart would be no plainer.
// So it is with `most_faces`, the room of a `FaceSet`, here and in `neighbors`: a `Chart` may have more, and a type for this bound would be one more.
#![tactic(auto)]

ghost use Rattle.std.specs.Prelude.{◌≡◌, ◌<◌, ◌≤◌, reverse};
ghost use Rattle.faceset.specs.Set.{has, Below};
ghost use Rattle.geometry.specs.Grid.{at};
ghost use Rattle.chart.specs.Limits.{most_faces};
ghost use Rattle.chart.specs.Chart.{partner};
ghost use Rattle.chart.specs.Seen.{seen};
ghost use Rattle.flips.specs.Search.{in_circle, should_flip, found, inspect_all};
ghost use Rattle.flips.specs.Ready.{Ready};

use arrayvec::ArrayVec;
use chart::Chart;
use faceset::FaceSet;
use geometry::GridPlace;

// Half-edges that wait, or that are listed, with a place for each half-edge of the largest chart: both together are never more than the faces, and two. Of a
// fixed size: there is no heap.
pub type HalfEdges = ArrayVec<usize, 756>;

// Whether q is strictly inside the circle of half-edge h's face.
#[tactic(auto, unfolding(crate::specs::Search::in_circle))]
fn is_in_circle(chart: &Chart, q: GridPlace, h: usize) -> bool
    requires { h < (seen chart.now).half_edges }
    ensures { result ≡ in_circle (seen chart.now) (at q) h }
{
    let v2 = chart.from(chart.prev(h));
    let v1 = chart.from(h);
    let v0 = chart.to(h);
    geometry::contained_in_circumference(v2, v1, v0, q)
}

// Whether half-edge h's face is to be opened.
#[tactic(auto, unfolding(crate::specs::Search::should_flip))]
fn should_flip(chart: &Chart, q: GridPlace, opened: FaceSet, h: usize) -> bool
    requires below { h < (seen chart.now).half_edges }
    requires few { (seen chart.now).faces ≤ most_faces }
    ensures { result ≡ should_flip (seen chart.now) (at q) (has opened.words) h }
{
    let f = chart.face(h);
    f != 0 && !opened.contains(f) && is_in_circle(chart, q, h)
}

// The Rust's e1: the partner of h's next.
pub fn behind_next(chart: &Chart, h: usize) -> usize
    requires { h < (seen chart.now).half_edges }
    ensures value { result ≡ partner ((seen chart.now).next h) }
    ensures below { result < (seen chart.now).half_edges }
{
    chart.partner(chart.next(h))
}

// The Rust's e2: the partner of h's prev.
pub fn behind_prev(chart: &Chart, h: usize) -> usize
    requires { h < (seen chart.now).half_edges }
    ensures value { result ≡ partner ((seen chart.now).prev h) }
    ensures below { result < (seen chart.now).half_edges }
{
    chart.partner(chart.prev(h))
}

// Inspects the half-edges that wait, the last of them first, and lists the border edges found behind those in `out`: the faces that are opened then. The
// Rust empties its stack for each start; here all starts wait on one stack, which finds the same.
// No iterator gives what waits, since the stack grows meanwhile: `while let`.
pub fn inspect_flips(
    chart: &Chart,
    q: GridPlace,
    start: FaceSet,
    waiting: &mut HalfEdges,
    out: &mut HalfEdges,
) -> FaceSet
    requires few { (seen chart.now).faces ≤ most_faces }
    requires ready { Ready (seen chart.now) (has start.words) out.old.items (reverse waiting.old.items) }
    ensures runs { inspect_all (seen chart.now) (at q) (reverse waiting.old.items) (found (has start.words) out.old.items) ≡ found (has result.words) out.new.items }
    ensures below { Below (seen chart.now).faces (has result.words) }
{
    let mut opened = start;
    while let Some(h) = waiting.pop() {
        if should_flip(chart, q, opened, h) {
            opened = opened.insert(chart.face(h));
            let e1 = behind_next(chart, h);
            let e2 = behind_prev(chart, h);
            waiting.push(e1);
            waiting.push(e2);
        } else {
            out.push(chart.partner(h));
        }
    }
    opened
}
