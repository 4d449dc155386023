// What the scan of the edges has found of a load: its side of each half-edge.
// That a number is below its count, each function asks: a type of a number with its chart would be no plainer.
ghost use Rattle.geometry.specs.Grid.{at};
ghost use Rattle.chart.specs.Seen.{seen};
ghost use Rattle.locate.specs.Sides.{SidesOf};

use chart::Chart;
use geometry::GridPlace;

// A load that is on no edge, and of each half-edge whether the load is strictly left of it.
#[derive(Clone, Copy)]
pub struct Sides<'a> {
    pub chart: Chart<'a>,
    pub q: GridPlace,
    pub left: &'a [bool],
    pub ghost said: { SidesOf (seen chart) (at q) left.now (seen chart).half_edges },
}

impl Sides<'_> {
    ghost use Rattle.std.specs.Prelude.{◌≡◌, ◌<◌};
    ghost use Rattle.whole.specs.First.{first, found};
    ghost use Rattle.locate.specs.Location.{left_of, left_of_three, in_face, left_of_outer};

    // Whether q is strictly left of half-edge h.
    fn is_left_of(&self, h: usize) -> bool
        requires { h < (seen self.now.chart).half_edges }
        ensures { result ≡ left_of (seen self.now.chart) (at self.now.q) h }
    {
        self.left[h]
    }

    // Whether q is strictly left of half-edge h, of its next and of its prev. All three are looked up: one by one the machine could not guess the answers.
    fn is_left_of_three(&self, h: usize) -> bool
        requires { h < (seen self.now.chart).half_edges }
        ensures { result ≡ left_of_three (seen self.now.chart) (at self.now.q) h }
    {
        let a = self.is_left_of(h);
        let b = self.is_left_of(self.chart.next(h));
        let c = self.is_left_of(self.chart.prev(h));
        a & (b & c)
    }

    // Whether f is an inner face and q strictly left of its three half-edges.
    fn is_in_face(&self, f: usize) -> bool
        requires { f < (seen self.now.chart).faces }
        ensures { result ≡ in_face (seen self.now.chart) (at self.now.q) f }
    {
        0 < f && self.is_left_of_three(self.chart.adjacent(f))
    }

    // The lowest inner face with q strictly left of its three half-edges.
    // By answers, what the check does not find: that the closure of `find` computes the definition's test.
    pub fn find_face(&self) -> Option<usize>
        ensures { result ≡ found (in_face (seen self.now.chart) (at self.now.q)) (seen self.now.chart).faces }
    {
        (0..self.chart.face_count()).find(|&f| self.is_in_face(f))
    }

    // Whether h is an outer half-edge and q strictly left of it.
    fn is_left_of_outer(&self, h: usize) -> bool
        requires { h < (seen self.now.chart).half_edges }
        ensures { result ≡ left_of_outer (seen self.now.chart) (at self.now.q) h }
    {
        self.chart.face(h) == 0 && self.is_left_of(h)
    }

    // The lowest outer half-edge with q strictly left, or the count of half-edges: `Location` holds it, so an Option would be undone at the one call.
    // By answers, what the check does not find: that the closure of `find` computes the definition's test.
    pub fn find_outer(&self) -> usize
        ensures { result ≡ first (left_of_outer (seen self.now.chart) (at self.now.q)) (seen self.now.chart).half_edges }
    {
        let n = self.chart.half_edge_count();
        (0..n).find(|&h| self.is_left_of_outer(h)).unwrap_or(n)
    }
}
