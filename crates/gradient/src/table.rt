// A chart with the gradients at its vertices, estimated once for many loads.
ghost use Rattle.chart.specs.Seen.{seen};
ghost use Rattle.gradient.specs.Estimated.{Estimated};

use crate::{Gradient, ValuedChart};

#[derive(Clone, Copy)]
pub struct Gradients<'a> {
    pub valued: ValuedChart<'a>,
    pub table: &'a [Gradient],
    pub ghost estimated: { Estimated (seen valued.chart) table.now (seen valued.chart).vertices },
}

impl Gradients<'_> {
    ghost use Rattle.std.specs.Prelude.{◌≡◌, ◌<◌};
    ghost use Rattle.gradient.specs.Gradient.{gradient_of};

    // The gradient at vertex v, as it was estimated.
    pub fn at(&self, v: usize) -> Gradient
        requires { v < (seen self.now.valued.chart).vertices }
        ensures { result ≡ gradient_of (seen self.now.valued.chart) v }
    {
        self.table[v]
    }
}
