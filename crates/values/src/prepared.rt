// An accepted chart with what is worked out of it once for many loads.
ghost use Rattle.std.specs.Prelude.{◌/◌};
ghost use Rattle.chart.specs.Seen.{seen};
ghost use Rattle.lines.specs.Lines.{Drawn};
ghost use Rattle.gradient.specs.Estimated.{Estimated};

use accepted::AcceptedChart;
use gradient::{Gradient, Gradients, ValuedChart};
use lines::{Line, Lines};

// The lines of the chart's edges, and the gradients at its vertices: slices, since `Lines` and `Gradients` would bring their charts, to be said equal.
#[derive(Clone, Copy)]
pub struct Prepared<'a> {
    pub accepted: AcceptedChart<'a>,
    pub lines: &'a [Line],
    pub gradients: &'a [Gradient],
    pub ghost drawn: { Drawn (seen accepted.chart) lines.now ((seen accepted.chart).half_edges / 2) },
    pub ghost estimated: { Estimated (seen accepted.chart) gradients.now (seen accepted.chart).vertices },
}

impl<'a> Prepared<'a> {
    ghost use Rattle.std.specs.Prelude.{◌≡◌};

    // The chart with its lines.
    pub fn lines(&self) -> Lines<'a>
        ensures { result.chart ≡ self.now.accepted.chart }
    {
        Lines {
            chart: self.accepted.chart,
            lines: self.lines,
        }
    }

    // The chart with its gradients.
    pub fn gradients(&self) -> Gradients<'a>
        ensures { result.valued.chart ≡ self.now.accepted.chart }
    {
        Gradients {
            valued: ValuedChart {
                chart: self.accepted.chart,
            },
            table: self.gradients,
        }
    }
}
