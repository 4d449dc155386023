// Half-edges of a chart in a list.
ghost use Rattle.chart.specs.Seen.{seen};
ghost use Rattle.natural.specs.Natural.{Listed};

use chart::Chart;

// A chart with a list of its half-edges, no more of them than the largest chart has.
#[derive(Clone, Copy)]
pub struct EdgeList<'a> {
    pub chart: Chart<'a>,
    pub edges: &'a [usize],
    pub ghost listed: { Listed (seen chart) edges.now },
}
