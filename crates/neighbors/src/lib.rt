// The edges of the natural neighbours of a load, by the kind of its location (01, "Weights"; `get_natural_neighbor_edges`).
// That a number is below its count, each function asks: a type of a number with its chart would be no plainer.
// So it is with `most_faces`, which `flips` asks.
#![tactic(auto)]

ghost use Rattle.std.specs.Prelude.{◌≡◌, [], ◌<◌, ◌≤◌};
ghost use Rattle.geometry.specs.Grid.{at};
ghost use Rattle.chart.specs.Limits.{most_faces};
ghost use Rattle.chart.specs.Tables.{rows};
ghost use Rattle.chart.specs.Chart.{chart_of};
ghost use Rattle.chart.specs.Seen.{seen};
ghost use Rattle.locate.specs.Laws.{Holds};
ghost use Rattle.neighbors.specs.Neighbors.{listed, face_neighbors, inner_edge_neighbors, hull_edge_neighbors, edge_neighbors, vertex_neighbors, part_of_convex_hull, neighbors_of};

use chart::Chart;
use faceset::FaceSet;
pub use flips::HalfEdges;
use geometry::GridPlace;
use locate::Location;

// In face f: its three half-edges are searched from, and it is opened.
// By answers, what the check does not find: what the stack holds after several pushes.
fn face_neighbors_by(
    chart: &Chart,
    q: GridPlace,
    f: usize,
    waiting: &mut HalfEdges,
    out: &mut HalfEdges,
) -> usize
    requires below { f < (seen chart.now).faces }
    requires few { (seen chart.now).faces ≤ most_faces }
    ensures { listed out.new.items result ≡ face_neighbors (seen chart.now) (at q) f }
{
    out.clear();
    let h = chart.adjacent(f);
    waiting.clear();
    waiting.push(flips::behind_prev(chart, h));
    waiting.push(chart.partner(h));
    waiting.push(flips::behind_next(chart, h));
    let opened = FaceSet::empty().insert(f);
    let found = flips::inspect_flips(chart, q, opened, waiting, out);
    out.reverse();
    found.count()
}

// On the inner edge of half-edge h: it and its partner are searched from.
// By answers, what the check does not find: what the stack holds after several pushes.
fn inner_edge_neighbors_by(
    chart: &Chart,
    q: GridPlace,
    h: usize,
    waiting: &mut HalfEdges,
    out: &mut HalfEdges,
) -> usize
    requires below { h < (seen chart.now).half_edges }
    requires few { (seen chart.now).faces ≤ most_faces }
    ensures { listed out.new.items result ≡ inner_edge_neighbors (seen chart.now) (at q) h }
{
    out.clear();
    waiting.clear();
    waiting.push(chart.partner(h));
    waiting.push(h);
    let found = flips::inspect_flips(chart, q, FaceSet::empty(), waiting, out);
    out.reverse();
    found.count()
}

// On the hull edge of half-edge h: the pair, which the Rust does not reverse. It asks nothing of a chart, only that h has a partner.
pub fn hull_edge_neighbors(h: usize, out: &mut HalfEdges) -> usize
    requires { h < 9223372036854775807 }
    ensures { listed out.new.items result ≡ hull_edge_neighbors h }
{
    out.clear();
    out.push(h);
    out.push(chart::partner_of(h));
    0
}

// At vertex v: its out half-edge, for which the table of the vertices is enough.
pub fn vertex_neighbors(vertices: &[i64], v: usize, out: &mut HalfEdges) -> usize
    requires { v < rows vertices.now }
    ensures { listed out.new.items result ≡ vertex_neighbors (chart_of vertices.now [] []) v }
{
    out.clear();
    out.push(chart::out_of(vertices, v));
    0
}

// Whether half-edge h or its partner is an outer one.
pub fn is_part_of_convex_hull(chart: &Chart, h: usize) -> bool
    requires { h < (seen chart.now).half_edges }
    ensures { result ≡ part_of_convex_hull (seen chart.now) h }
{
    chart.face(h) == 0 || chart.face(chart.partner(h)) == 0
}

// On the edge of half-edge h.
#[tactic(auto, unfolding(crate::specs::Neighbors::edge_neighbors))]
fn edge_neighbors_by(
    chart: &Chart,
    q: GridPlace,
    h: usize,
    waiting: &mut HalfEdges,
    out: &mut HalfEdges,
) -> usize
    requires below { h < (seen chart.now).half_edges }
    requires few { (seen chart.now).faces ≤ most_faces }
    ensures { listed out.new.items result ≡ edge_neighbors (seen chart.now) (at q) h }
{
    if is_part_of_convex_hull(chart, h) {
        return hull_edge_neighbors(h, out);
    }
    inner_edge_neighbors_by(chart, q, h, waiting, out)
}

// The edges of the natural neighbours of a load q that is located, in `out`, and how many faces were opened. The search's stack is the caller's, whatever it
// holds: a batch makes it once.
#[tactic(auto, unfolding(crate::specs::Neighbors::neighbors_of))]
pub fn natural_neighbor_edges_by(
    chart: &Chart,
    q: GridPlace,
    location: Location,
    waiting: &mut HalfEdges,
    out: &mut HalfEdges,
) -> usize
    requires holds { Holds (seen chart.now) (at q) location }
    requires few { (seen chart.now).faces ≤ most_faces }
    ensures { listed out.new.items result ≡ neighbors_of (seen chart.now) (at q) location }
{
    match location {
        Location::OnVertex(v) => vertex_neighbors(chart.vertices, v as usize, out),
        Location::OnEdge(h) => edge_neighbors_by(chart, q, h as usize, waiting, out),
        Location::OnFace(f) => face_neighbors_by(chart, q, f as usize, waiting, out),
        Location::OutsideOfConvexHull(_) => {
            out.clear();
            0
        }
    }
}

// The same with a stack of the call's own, for one load.
pub fn face_neighbors(chart: &Chart, q: GridPlace, f: usize, out: &mut HalfEdges) -> usize
    requires below { f < (seen chart.now).faces }
    requires few { (seen chart.now).faces ≤ most_faces }
    ensures { listed out.new.items result ≡ face_neighbors (seen chart.now) (at q) f }
{
    face_neighbors_by(chart, q, f, &mut HalfEdges::new(), out)
}

pub fn inner_edge_neighbors(chart: &Chart, q: GridPlace, h: usize, out: &mut HalfEdges) -> usize
    requires below { h < (seen chart.now).half_edges }
    requires few { (seen chart.now).faces ≤ most_faces }
    ensures { listed out.new.items result ≡ inner_edge_neighbors (seen chart.now) (at q) h }
{
    inner_edge_neighbors_by(chart, q, h, &mut HalfEdges::new(), out)
}

pub fn edge_neighbors(chart: &Chart, q: GridPlace, h: usize, out: &mut HalfEdges) -> usize
    requires below { h < (seen chart.now).half_edges }
    requires few { (seen chart.now).faces ≤ most_faces }
    ensures { listed out.new.items result ≡ edge_neighbors (seen chart.now) (at q) h }
{
    edge_neighbors_by(chart, q, h, &mut HalfEdges::new(), out)
}

pub fn get_natural_neighbor_edges(
    chart: &Chart,
    q: GridPlace,
    location: Location,
    out: &mut HalfEdges,
) -> usize
    requires holds { Holds (seen chart.now) (at q) location }
    requires few { (seen chart.now).faces ≤ most_faces }
    ensures { listed out.new.items result ≡ neighbors_of (seen chart.now) (at q) location }
{
    natural_neighbor_edges_by(chart, q, location, &mut HalfEdges::new(), out)
}
