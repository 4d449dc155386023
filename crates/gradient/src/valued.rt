// A chart whose numbers and values are all in range.
ghost use Rattle.chart.specs.Seen.{seen};
ghost use Rattle.gradient.specs.Gradient.{Valued};

use chart::Chart;

// The tables of a chart that refusals 4 and 6 leave: the vertices' values run from 0 to 1,000,000.
#[derive(Clone, Copy)]
pub struct ValuedChart<'a> {
    pub chart: Chart<'a>,
    pub ghost valued: { Valued (seen chart) },
}

impl ValuedChart<'_> {
    ghost use Rattle.std.specs.Prelude.{◌≡◌, ◌<◌};
    ghost use Rattle.points.specs.Floats.{real_of};

    // The value of vertex v.
    pub fn value(&self, v: usize) -> f64
        requires { v < (seen self.now.chart).vertices }
        ensures { result ≡ real_of ((seen self.now.chart).value v) }
    {
        points::value(self.chart.vertices, v)
    }
}
