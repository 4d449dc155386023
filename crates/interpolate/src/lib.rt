// Values from vertices and their weights (01, "Gradient and value"; `interpolate`, `interpolate_gradient` with flatness 1).
// That a number is below its count, each function asks: a type of a number with its chart would be no plainer.
// Owners and weights are two slices, as `natural` leaves them.
#![tactic(auto)]

ghost use Rattle.std.specs.Prelude.{◌≡◌, ◌<◌};
ghost use Rattle.geometry.specs.Grid.{at};
ghost use Rattle.chart.specs.Seen.{seen};
ghost use Rattle.interpolate.specs.Values.{Owners, value_sum, diff_of, zeta_of, blend_on, blended, no_blend, value_blend};

use chart::Chart;
use geometry::GridPlace;
use gradient::{Gradients, ValuedChart};
use points::Point2;

// The sums of `interpolate_gradient`.
#[derive(Clone, Copy, Default)]
pub struct Blend {
    pub alpha: f64,
    pub beta: f64,
    pub sum_c1_weights: f64,
    pub sum_c1: f64,
    pub sum_c0: f64,
}

// The weighted sum of the vertices' values.
// By answers, what the check does not find: that the walk over two lists is at its end.
#[tactic(auto, unfolding(crate::specs::Values::sum_from))]
pub fn value_sum(valued: &ValuedChart, owners: &[usize], weights: &[f64]) -> f64
    requires { Owners (seen valued.now.chart) owners.now }
    ensures { result ≡ value_sum (seen valued.now.chart) owners.now weights.now }
{
    let mut total = 0.0;
    for (v, w) in owners.iter().zip(weights) {
        total = total + valued.value(*v) * *w;
    }
    total
}

// The load seen from vertex v.
fn diff(chart: &Chart, q: GridPlace, v: usize) -> Point2
    requires { v < (seen chart.now).vertices }
    ensures { result ≡ diff_of (seen chart.now) (at q) v }
{
    Point2::from(q) - points::position(chart, v)
}

// The height of the plane through vertex v with its gradient, at the load.
fn zeta(gradients: &Gradients, q: GridPlace, v: usize) -> f64
    requires { v < (seen gradients.now.valued.chart).vertices }
    ensures { result ≡ zeta_of (seen gradients.now.valued.chart) (at q) v }
{
    let h = gradients.valued.value(v);
    let d = diff(&gradients.valued.chart, q, v);
    let g = gradients.at(v);
    h + d.dot(Point2 { x: g.x, y: g.y })
}

impl Blend {
    // With one more vertex, of height h and squared distance r2. No term is shared or regrouped.
    #[tactic(auto, unfolding(crate::specs::Values::blend_on))]
    fn on(self, h: f64, r2: f64, zeta: f64, w: f64) -> Self
        ensures { result ≡ blend_on self h r2 zeta w }
    {
        let c1 = w / r2;
        Self {
            alpha: self.alpha + c1 * r2,
            beta: self.beta + w * r2,
            sum_c1_weights: self.sum_c1_weights + c1,
            sum_c1: self.sum_c1 + zeta * c1,
            sum_c0: self.sum_c0 + h * w,
        }
    }

    #[tactic(auto, unfolding(crate::specs::Values::blended))]
    fn result(self) -> f64
        ensures { result ≡ blended self }
    {
        let alpha = self.alpha / self.sum_c1_weights;
        let c1 = self.sum_c1 / self.sum_c1_weights;
        (alpha * self.sum_c0 + self.beta * c1) / (alpha + self.beta)
    }
}

// The vertices' values and gradients, blended.
// By answers, what the check does not find: that the walk over two lists is at its end.
#[tactic(auto, using(crate::proofs::Laws::steps))]
pub fn value_blend(gradients: &Gradients, q: GridPlace, owners: &[usize], weights: &[f64]) -> f64
    requires { Owners (seen gradients.now.valued.chart) owners.now }
    ensures { result ≡ value_blend (seen gradients.now.valued.chart) (at q) owners.now weights.now }
{
    let valued = gradients.valued;
    let mut sums = Blend::default();
    for (v, w) in owners.iter().zip(weights) {
        let h = valued.value(*v);
        let r2 = diff(&valued.chart, q, *v).length2();
        if r2 == 0.0 {
            return h;
        }
        sums = sums.on(h, r2, zeta(gradients, q, *v), *w);
    }
    sums.result()
}
