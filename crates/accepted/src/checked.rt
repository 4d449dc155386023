// A chart that no refusal meets.
ghost use Rattle.chart.specs.Seen.{seen};
ghost use Rattle.accepted.specs.Unrefused.{Unrefused};

use chart::Chart;

// The tables of an accepted chart.
#[derive(Clone, Copy)]
pub struct AcceptedChart<'a> {
    pub chart: Chart<'a>,
    pub ghost unrefused: { Unrefused (seen chart) },
}
