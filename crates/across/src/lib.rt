// Refusal 11 of a chart that 7 to 10 let pass: one circle for each edge, instead of every vertex against every circle (theorem `crowded-pressed`, crate `nearby`).
#![tactic(auto)]

ghost use Rattle.std.specs.Prelude.{◌≡◌, ◌<◌, ◌/◌};
ghost use Rattle.whole.specs.First.{some};
ghost use Rattle.chart.specs.Seen.{seen};
ghost use Rattle.across.specs.Across.{presses, pressed};

use chart::Chart;

// Whether h and its partner are inner, and the third corner of the partner's face is strictly inside the circle of h's.
// It asks that h is below its count: a type of a number with its chart would be no plainer.
fn is_pressing(chart: &Chart, h: usize) -> bool
    requires { h < (seen chart.now).half_edges }
    ensures { result ≡ presses (seen chart.now) h }
{
    let t = chart.partner(h);
    chart.face(h) != 0
        && chart.face(t) != 0
        && geometry::contained_in_circumference(
            chart.from(h),
            chart.to(h),
            chart.from(chart.prev(h)),
            chart.from(chart.prev(t)),
        )
}

// 11, of a chart that 7 to 10 let pass: across an edge, a third corner strictly inside a circle.
#[tactic(auto, using(whole::proofs::Scans::scans))]
pub fn some_pressed(chart: &Chart) -> bool
    ensures { result ≡ some (pressed (seen chart.now)) ((seen chart.now).half_edges / 2) }
{
    (0..chart.half_edge_count() / 2).any(|k| is_pressing(chart, k * 2))
}
