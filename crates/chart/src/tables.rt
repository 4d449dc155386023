// A chart's three tables together.
// That a number is below its count, each method asks: a type of a number with its chart would be no plainer, since tables and answers hold numbers.
ghost use Rattle.chart.specs.Chart.{chart_of, InRange};

use geometry::GridPlace;

// The tables of a chart whose numbers are in range (refusals 4 and 6).
#[derive(Clone, Copy)]
pub struct Chart<'a> {
    pub vertices: &'a [i64],
    pub edges: &'a [usize],
    pub faces: &'a [usize],
    pub ghost in_range: { InRange (chart_of vertices.now edges.now faces.now) },
}

impl Chart<'_> {
    ghost use Rattle.std.specs.Prelude.{◌≡◌, ◌<◌, length};
    ghost use Rattle.geometry.specs.Grid.{at};
    ghost use Rattle.chart.specs.Chart.{partner, from_of, to_of};
    ghost use Rattle.chart.specs.Seen.{seen};

    // How many vertices, half-edges and faces there are.
    pub fn vertex_count(&self) -> usize
        ensures { result ≡ (seen self.now).vertices }
    {
        self.vertices.len() / 4
    }

    pub fn half_edge_count(&self) -> usize
        ensures { result ≡ (seen self.now).half_edges }
    {
        self.edges.len() / 4
    }

    pub fn face_count(&self) -> usize
        ensures { result ≡ (seen self.now).faces }
    {
        self.faces.len()
    }

    pub fn place(&self, v: usize) -> GridPlace
        requires { v < (seen self.now).vertices }
        ensures { at result ≡ (seen self.now).place v }
    {
        GridPlace {
            x: self.vertices[v * 4],
            y: self.vertices[v * 4 + 1],
        }
    }

    pub fn value(&self, v: usize) -> i64
        requires { v < (seen self.now).vertices }
        ensures { result ≡ (seen self.now).value v }
    {
        crate::value_of(self.vertices, v)
    }

    pub fn out(&self, v: usize) -> usize
        requires { v < (seen self.now).vertices }
        ensures value { result ≡ (seen self.now).out v }
        ensures below { result < (seen self.now).half_edges }
    {
        crate::out_of(self.vertices, v)
    }

    pub fn origin(&self, h: usize) -> usize
        requires { h < (seen self.now).half_edges }
        ensures value { result ≡ (seen self.now).origin h }
        ensures below { result < (seen self.now).vertices }
    {
        crate::origin_of(self.edges, h)
    }

    pub fn next(&self, h: usize) -> usize
        requires { h < (seen self.now).half_edges }
        ensures value { result ≡ (seen self.now).next h }
        ensures below { result < (seen self.now).half_edges }
    {
        crate::next_of(self.edges, h)
    }

    pub fn prev(&self, h: usize) -> usize
        requires { h < (seen self.now).half_edges }
        ensures value { result ≡ (seen self.now).prev h }
        ensures below { result < (seen self.now).half_edges }
    {
        crate::prev_of(self.edges, h)
    }

    pub fn face(&self, h: usize) -> usize
        requires { h < (seen self.now).half_edges }
        ensures value { result ≡ (seen self.now).face h }
        ensures below { result < (seen self.now).faces }
    {
        crate::face_of(self.edges, h)
    }

    pub fn adjacent(&self, f: usize) -> usize
        requires { f < (seen self.now).faces }
        ensures value { result ≡ (seen self.now).adjacent f }
        ensures below { result < (seen self.now).half_edges }
    {
        crate::adjacent_of(self.faces, f)
    }

    // The partner of half-edge h, which is a half-edge of the chart too.
    pub fn partner(&self, h: usize) -> usize
        requires { h < (seen self.now).half_edges }
        ensures value { result ≡ partner h }
        ensures below { result < (seen self.now).half_edges }
    {
        crate::partner_of(h)
    }

    // The place where half-edge h starts.
    pub fn from(&self, h: usize) -> GridPlace
        requires { h < (seen self.now).half_edges }
        ensures { at result ≡ from_of (seen self.now) h }
    {
        self.place(self.origin(h))
    }

    // The place where half-edge h ends: where its partner starts.
    pub fn to(&self, h: usize) -> GridPlace
        requires { h < (seen self.now).half_edges }
        ensures { at result ≡ to_of (seen self.now) h }
    {
        self.from(self.partner(h))
    }
}
