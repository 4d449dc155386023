// A chart with the lines of its edges.
ghost use Rattle.std.specs.Prelude.{◌/◌};
ghost use Rattle.chart.specs.Seen.{seen};
ghost use Rattle.lines.specs.Lines.{Drawn};

use crate::Line;
use chart::Chart;
use geometry::GridPlace;

// The lines of a chart's edges stand in the slice, that of half-edge 2k at k.
#[derive(Clone, Copy)]
pub struct Lines<'a> {
    pub chart: Chart<'a>,
    pub lines: &'a [Line],
    pub ghost drawn: { Drawn (seen chart) lines.now ((seen chart).half_edges / 2) },
}

impl Lines<'_> {
    ghost use Rattle.std.specs.Prelude.{◌≡◌, ◌*◌, ◌<◌};
    ghost use Rattle.geometry.specs.Plane.{side};
    ghost use Rattle.geometry.specs.Grid.{at};
    ghost use Rattle.chart.specs.Chart.{from_of, to_of};

    // The side of q at half-edge 2k: the vector's cross product with q, less the offset.
    // By answers, what the check does not find: that the difference fits, and is the side.
    pub fn side(&self, q: GridPlace, k: usize) -> i64
        requires { k < (seen self.now.chart).half_edges / 2 }
        ensures { result ≡ side (from_of (seen self.now.chart) (2 * k)) (to_of (seen self.now.chart) (2 * k)) (at q) }
    {
        let line = self.lines[k];
        geometry::cross(line.vector, q.into()) - line.offset
    }
}
