// Edges are flipped about a new vertex until the circle rule is met (`legalize_edge`).
#![tactic(auto)]

ghost use Rattle.std.specs.Prelude.{◌≡◌, ◌<◌};
ghost use Rattle.whole.specs.First.{found};
ghost use Rattle.chart.specs.Chart.{InRange};
ghost use Rattle.chart.specs.Seen.{seen};
ghost use Rattle.rewire.specs.Tables.{KeepsOuts};
ghost use Rattle.rewire.specs.Front.{shown, SameLent};
ghost use Rattle.stars.specs.Star.{Growing};
ghost use Rattle.legal.specs.Legal.{wants_flip, Legal};

use chart::Chart;
use rewire::Tables;

// Whether vertex n is across half-edge h and strictly inside the circle of the face beyond h.
// h is below a count of this chart: a handle of both would be a second type for what stands in the tables as a number.
#[tactic(auto, unfolding(crate::specs::Legal::wants_flip))]
fn wants_flip(chart: &Chart, n: usize, h: usize) -> bool
    requires n_below { n < (seen chart.now).vertices }
    requires h_below { h < (seen chart.now).half_edges }
    ensures { result ≡ wants_flip (seen chart.now) n h }
{
    if chart.face(h) == 0 || chart.origin(chart.prev(h)) != n {
        return false;
    }
    let t = chart.partner(h);
    chart.face(t) != 0
        && geometry::contained_in_circumference(
            chart.to(h),
            chart.from(h),
            chart.from(chart.prev(t)),
            chart.place(n),
        )
}

// The first half-edge whose edge is to be flipped.
// By answers, what the check does not find: that the closure of `find` computes the definition's test.
// Most of the work of a new vertex with many flips: on its own the loop has its registers for itself.
#[inline(never)]
fn find_flip(chart: &Chart, n: usize) -> Option<usize>
    requires { n < (seen chart.now).vertices }
    ensures { result ≡ found (wants_flip (seen chart.now) n) (seen chart.now).half_edges }
{
    (0..chart.half_edge_count()).find(|&h| wants_flip(chart, n, h))
}

// Flips edges about vertex n, the last one, until none is to be flipped. Each flip changes the tables searched, so no iterator over them can go on.
// By answers, what the check does not find: what a flip keeps, and the measure.
pub fn legalize(tables: &mut Tables, n: usize)
    requires in_range { InRange (shown tables.old) }
    requires growing { Growing (shown tables.old) n }
    ensures legal { Legal (shown tables.old) n (shown tables.new) }
    ensures outs { KeepsOuts tables.old.vertices.now tables.new.vertices.now }
    ensures lent { SameLent tables.old tables.new }
{
    while let Some(h) = find_flip(&tables.chart(), n) {
        tables.flip_cw(h);
    }
}
