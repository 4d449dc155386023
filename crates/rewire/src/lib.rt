// The operations of dcel_operations.rs on a chart's tables. Each writes whole triangles in.
#![tactic(auto)]

ghost use Rattle.std.specs.Prelude.{◌≡◌, [], ◌∷◌, ◌+◌, ◌*◌, ◌<◌, pos, length, set, take, reverse, All};
ghost use Rattle.chart.specs.Tables.{rows, next_of, prev_of};
ghost use Rattle.chart.specs.Chart.{partner, InRange};
ghost use Rattle.chart.specs.Seen.{seen};
ghost use Rattle.sound.specs.Sound.{Inner};
ghost use Rattle.patches.specs.Wired.{Wired};
ghost use Rattle.patches.specs.Flip.{flip_row, flipped};
ghost use Rattle.patches.specs.Insert.{insert_row₀, insert_row₁, insert_row₂, inserted};
ghost use Rattle.patches.specs.Split.{split_row₀, split_row₁, split_row₂, split_row₃, split};
ghost use Rattle.rewire.specs.Tables.{row_in, triangle_in, triangles_in, faces_in, out_in, Inside, KeepsOuts, NewOut, row_of, FrontFits};

use chart::Chart;
use geometry::Place;
use patches::Row;

// The tables of a chart of so many vertices, half-edges and faces, in the first elements of lent slices, which may have room behind for more.
// `InRange`, `Wired` and `Roomy` stand at the operations: a vertex goes in with the last two alone and may leave no room, so none is the type's to ask.
#[derive(Drop)]
pub struct Tables<'a> {
    pub vertices: &'a mut [i64],
    pub edges: &'a mut [usize],
    pub faces: &'a mut [usize],
    pub vertex_count: usize,
    pub half_edge_count: usize,
    pub face_count: usize,
    pub ghost fits: { FrontFits vertex_count half_edge_count face_count vertices.now edges.now faces.now },
}

// Row r of a table: four numbers by their index, since the definitions read a chart off flat tables.
#[tactic(auto, unfolding(crate::specs::Tables::row_in))]
fn put_row<T: Copy>(table: &mut [T], r: usize, a: T, b: T, c: T, d: T)
    requires { r < rows table.old }
    ensures { table.new ≡ row_in table.old r a b c d }
{
    let at = r * 4;
    table[at] = a;
    table[at + 1] = b;
    table[at + 2] = c;
    table[at + 3] = d;
}

// The row of a half-edge.
fn put_half_edge(edges: &mut [usize], r: Row)
    requires { r.key < rows edges.old }
    ensures { edges.new ≡ row_in edges.old r.key r.from r.next r.prev r.face }
{
    put_row(edges, r.key, r.from, r.next, r.prev, r.face);
}

// The three half-edges of a triangle, and its face.
#[tactic(auto, unfolding(crate::specs::Tables::triangle_in))]
pub fn put_triangle(edges: &mut [usize], faces: &mut [usize], r: Row)
    requires { Inside edges.old faces.old r }
    ensures edges { edges.new ≡ triangle_in edges.old r }
    ensures faces { faces.new ≡ set faces.old r.face r.key }
{
    put_half_edge(edges, r.turn().turn());
    put_half_edge(edges, r.turn());
    put_half_edge(edges, r);
    faces[r.face] = r.key;
}

// Triangles, one after the other.
#[tactic(auto, using(crate::proofs::Front::one_more), unfolding(crate::specs::Tables::triangles_in, crate::specs::Tables::faces_in))]
fn put_triangles(edges: &mut [usize], faces: &mut [usize], triangles: &[Row])
    requires { All (Inside edges.old faces.old) triangles.now }
    ensures edges { edges.new ≡ triangles_in edges.old (reverse triangles.now) }
    ensures faces { faces.new ≡ faces_in faces.old (reverse triangles.now) }
{
    for r in triangles {
        put_triangle(edges, faces, *r);
    }
}

// The out half-edge of vertex v.
#[tactic(auto, unfolding(crate::specs::Tables::out_in))]
pub fn set_out(vertices: &mut [i64], v: usize, h: usize)
    requires { (v < rows vertices.old) × (h < 9223372036854775807) }
    ensures { vertices.new ≡ out_in vertices.old v h }
{
    vertices[v * 4 + 3] = h as i64;
}

// The row of vertex v.
fn put_vertex(vertices: &mut [i64], v: usize, q: Place, value: i64, out: usize)
    requires { (v < rows vertices.old) × (out < 9223372036854775807) }
    ensures { vertices.new ≡ row_in vertices.old v q.x q.y value (pos out) }
{
    put_row(vertices, v, q.x, q.y, value, out as i64);
}

// The triangle on half-edge e, whose partner is t, once the edge is turned about.
fn flip_row(chart: &Chart, e: usize, t: usize) -> Row
    requires e_below { e < (seen chart.now).half_edges }
    requires t_below { t < (seen chart.now).half_edges }
    ensures { result ≡ flip_row (seen chart.now) e t }
{
    Row {
        key: e,
        next: chart.prev(t),
        prev: chart.next(e),
        face: chart.face(e),
        from: chart.origin(chart.prev(e)),
        to: chart.origin(chart.prev(t)),
        apex: chart.origin(t),
    }
}

impl Tables<'_> {
    ghost use Rattle.rewire.specs.Front.{shown, Roomy, SameLent};

    // The chart that they hold.
    pub fn chart(&self) -> Chart<'_>
        requires { InRange (shown self.now) }
        ensures shown { seen result ≡ shown self.now }
        ensures front { result.vertices.now ≡ take (4 * self.now.vertex_count) self.now.vertices.now }
        ensures vertex_rows { length result.vertices.now ≡ 4 * self.now.vertex_count }
        ensures edge_rows { length result.edges.now ≡ 4 * self.now.half_edge_count }
    {
        let a = 4 * self.vertex_count;
        let b = 4 * self.half_edge_count;
        Chart {
            vertices: &self.vertices[..a],
            edges: &self.edges[..b],
            faces: &self.faces[..self.face_count],
        }
    }

    // The row of half-edge h as it stands.
    fn row(&self, h: usize) -> Row
        requires { (h < rows self.now.edges.now) × (next_of self.now.edges.now h < rows self.now.edges.now) × (prev_of self.now.edges.now h < rows self.now.edges.now) }
        ensures { result ≡ row_of self.now.edges.now h }
    {
        let next = chart::next_of(self.edges, h);
        let prev = chart::prev_of(self.edges, h);
        Row {
            key: h,
            next,
            prev,
            face: chart::face_of(self.edges, h),
            from: chart::origin_of(self.edges, h),
            to: chart::origin_of(self.edges, next),
            apex: chart::origin_of(self.edges, prev),
        }
    }

    // The triangles that replace r about a new vertex: it is across each of r's half-edges.
    fn insert_rows(&self, r: Row) -> [Row; 3]
        requires { Roomy self.now }
        ensures { result ≡ insert_row₂ r self.now.vertex_count self.now.half_edge_count self.now.face_count ∷ insert_row₁ r self.now.vertex_count self.now.half_edge_count self.now.face_count ∷ insert_row₀ r self.now.vertex_count self.now.half_edge_count ∷ [] }
    {
        let n = self.vertex_count;
        let h = self.half_edge_count;
        let f = self.face_count;
        let onward = r.turn();
        let back = onward.turn();
        [
            Row {
                next: h + 4,
                prev: h + 3,
                face: f + 1,
                apex: n,
                ..back
            },
            Row {
                next: h + 2,
                prev: h + 1,
                face: f,
                apex: n,
                ..onward
            },
            Row {
                next: h,
                prev: h + 5,
                apex: n,
                ..r
            },
        ]
    }

    // The triangles that replace r and s, on both sides of an edge, about a new vertex on it.
    fn split_rows(&self, r: Row, s: Row) -> [Row; 4]
        requires { Roomy self.now }
        ensures { result ≡ split_row₃ r s self.now.vertex_count self.now.half_edge_count self.now.face_count ∷ split_row₂ s self.now.vertex_count self.now.half_edge_count self.now.face_count ∷ split_row₁ r s self.now.vertex_count self.now.half_edge_count ∷ split_row₀ r self.now.vertex_count self.now.half_edge_count ∷ [] }
    {
        let n = self.vertex_count;
        let h = self.half_edge_count;
        let f = self.face_count;
        let back = r.turn().turn();
        let far = s.turn().turn();
        [
            Row {
                key: h + 4,
                next: h + 3,
                face: f + 1,
                to: n,
                apex: s.from,
                ..back
            },
            Row {
                key: h + 2,
                next: h + 1,
                face: f,
                to: n,
                ..s
            },
            Row {
                key: h,
                to: n,
                apex: r.from,
                ..far
            },
            Row {
                next: h + 5,
                to: n,
                ..r
            },
        ]
    }

    // Turns the edge of half-edge e about: it then joins the two corners across.
    // By answers, what the check does not find: that the front of the slices shows the chart with what was written.
    pub fn flip_cw(&mut self, e: usize)
        requires in_range { InRange (shown self.old) }
        requires e_below { e < (shown self.old).half_edges }
        ensures flipped { shown self.new ≡ flipped (shown self.old) e }
        ensures outs { KeepsOuts self.old.vertices.now self.new.vertices.now }
        ensures lent { SameLent self.old self.new }
    {
        let chart = self.chart();
        let t = chart.partner(e);
        let first = flip_row(&chart, e, t);
        let second = flip_row(&chart, t, e);
        put_triangles(self.edges, self.faces, &[second, first]);
        set_out(self.vertices, second.apex, second.prev);
        set_out(self.vertices, first.apex, first.prev);
    }

    // Divides the face of half-edge e in three about a new vertex at q.
    // By answers, what the check does not find: that the front of the slices shows the chart with what was written.
    pub fn insert_into_triangle(&mut self, e: usize, q: Place, value: i64)
        requires room { Roomy self.old }
        requires wired { Wired (shown self.old) }
        requires inner { Inner (shown self.old) e }
        ensures inserted { shown self.new ≡ inserted (shown self.old) e q value }
        ensures outs { NewOut self.old.vertex_count self.old.vertices.now self.new.vertices.now }
        ensures lent { SameLent self.old self.new }
    {
        let rows = self.insert_rows(self.row(e));
        put_triangles(self.edges, self.faces, &rows);
        let out = self.half_edge_count + 1;
        put_vertex(self.vertices, self.vertex_count, q, value, out);
        self.vertex_count += 1;
        self.half_edge_count += 6;
        self.face_count += 2;
    }

    // Divides the two faces at half-edge e in four about a new vertex at q on it.
    // By answers, what the check does not find: that the front of the slices shows the chart with what was written.
    pub fn split_edge(&mut self, e: usize, q: Place, value: i64)
        requires room { Roomy self.old }
        requires wired { Wired (shown self.old) }
        requires inner { Inner (shown self.old) e }
        requires beyond { Inner (shown self.old) (partner e) }
        ensures split { shown self.new ≡ split (shown self.old) e q value }
        ensures outs { NewOut self.old.vertex_count self.old.vertices.now self.new.vertices.now }
        ensures lent { SameLent self.old self.new }
    {
        let t = chart::partner_of(e);
        let r = self.row(e);
        let s = self.row(t);
        let rows = self.split_rows(r, s);
        put_triangles(self.edges, self.faces, &rows);
        put_vertex(self.vertices, self.vertex_count, q, value, t);
        set_out(self.vertices, s.from, self.half_edge_count + 2);
        self.vertex_count += 1;
        self.half_edge_count += 6;
        self.face_count += 2;
    }
}
