// Refusal 7: the links of the tables (01, "Links"). Each clause is a function of the whole chart.
// That a number is below its count, each function asks: a type of a number with its chart would be no plainer.
#![tactic(auto)]

ghost use Rattle.std.specs.Prelude.{◌≡◌, ◌<◌, ◌≤◌, false, length, replicate};
ghost use Rattle.whole.specs.First.{some};
ghost use Rattle.chart.specs.Limits.{most_vertices};
ghost use Rattle.chart.specs.Seen.{seen};
ghost use Rattle.links.specs.Links.{next_starts, ends_differ, prev_next, next_prev, keeps_face, three_nexts, of_its_face, linked, unlinked, out_starts, stray_out, adjacent_has, stray_adjacent, leaves_again, links_broken};

use chart::Chart;

// The next of h starts at the origin of h's partner.
fn next_starts(chart: &Chart, h: usize) -> bool
    requires { h < (seen chart.now).half_edges }
    ensures { result ≡ next_starts (seen chart.now) h }
{
    chart.origin(chart.next(h)) == chart.origin(chart.partner(h))
}

// h and its partner have different origins.
fn ends_differ(chart: &Chart, h: usize) -> bool
    requires { h < (seen chart.now).half_edges }
    ensures { result ≡ ends_differ (seen chart.now) h }
{
    chart.origin(h) != chart.origin(chart.partner(h))
}

// Prev of next is h.
fn prev_next(chart: &Chart, h: usize) -> bool
    requires { h < (seen chart.now).half_edges }
    ensures { result ≡ prev_next (seen chart.now) h }
{
    chart.prev(chart.next(h)) == h
}

// Next of prev is h.
fn next_prev(chart: &Chart, h: usize) -> bool
    requires { h < (seen chart.now).half_edges }
    ensures { result ≡ next_prev (seen chart.now) h }
{
    chart.next(chart.prev(h)) == h
}

// Next keeps the face.
fn keeps_face(chart: &Chart, h: usize) -> bool
    requires { h < (seen chart.now).half_edges }
    ensures { result ≡ keeps_face (seen chart.now) h }
{
    chart.face(chart.next(h)) == chart.face(h)
}

// On an inner face three nexts return to h.
fn three_nexts(chart: &Chart, h: usize) -> bool
    requires { h < (seen chart.now).half_edges }
    ensures { result ≡ three_nexts (seen chart.now) h }
{
    if chart.face(h) == 0 {
        return true;
    }
    let second = chart.next(chart.next(h));
    chart.next(second) == h
}

// A half-edge of an inner face is its adjacent one or that one's next or prev.
fn of_its_face(chart: &Chart, h: usize) -> bool
    requires { h < (seen chart.now).half_edges }
    ensures { result ≡ of_its_face (seen chart.now) h }
{
    let f = chart.face(h);
    if f == 0 {
        return true;
    }
    let a = chart.adjacent(f);
    if h == a {
        return true;
    }
    if h == chart.next(a) {
        return true;
    }
    h == chart.prev(a)
}

// The clauses about one half-edge, together.
#[tactic(auto, unfolding(crate::specs::Links::linked))]
fn is_linked(chart: &Chart, h: usize) -> bool
    requires { h < (seen chart.now).half_edges }
    ensures { result ≡ linked (seen chart.now) h }
{
    next_starts(chart, h)
        && ends_differ(chart, h)
        && prev_next(chart, h)
        && next_prev(chart, h)
        && keeps_face(chart, h)
        && three_nexts(chart, h)
        && of_its_face(chart, h)
}

// A vertex's out half-edge starts there.
fn out_starts(chart: &Chart, v: usize) -> bool
    requires { v < (seen chart.now).vertices }
    ensures { result ≡ out_starts (seen chart.now) v }
{
    chart.origin(chart.out(v)) == v
}

// A face's adjacent half-edge has that face.
fn adjacent_has(chart: &Chart, f: usize) -> bool
    requires { f < (seen chart.now).faces }
    ensures { result ≡ adjacent_has (seen chart.now) f }
{
    chart.face(chart.adjacent(f)) == f
}

// Whether some half-edge is not linked.
#[tactic(auto, using(whole::proofs::Scans::scans))]
fn some_unlinked(chart: &Chart) -> bool
    ensures { result ≡ some (unlinked (seen chart.now)) (seen chart.now).half_edges }
{
    (0..chart.half_edge_count()).any(|h| !is_linked(chart, h))
}

// Whether some vertex's out half-edge starts elsewhere.
#[tactic(auto, using(whole::proofs::Scans::scans))]
fn some_stray_out(chart: &Chart) -> bool
    ensures { result ≡ some (stray_out (seen chart.now)) (seen chart.now).vertices }
{
    (0..chart.vertex_count()).any(|v| !out_starts(chart, v))
}

// Whether some face's adjacent half-edge has another face.
#[tactic(auto, using(whole::proofs::Scans::scans))]
fn some_stray_adjacent(chart: &Chart) -> bool
    ensures { result ≡ some (stray_adjacent (seen chart.now)) (seen chart.now).faces }
{
    (0..chart.face_count()).any(|f| !adjacent_has(chart, f))
}

// The empty set of vertices: an array, since there is no heap.
fn no_vertex() -> [bool; 128]
    ensures { result ≡ replicate most_vertices false }
{
    [false; 128]
}

// Whether two outer half-edges leave one vertex: the set of the vertices that one has left is kept beside the scan.
// The bound is that of the set's room. A `Chart` may have more vertices; a type of one that has not would serve this, `links_broken` and
// `checks::chart_refusal` alone (no plainer).
// By answers, what the check does not find: the step of the loop where its branches join.
fn some_leaves_again(chart: &Chart) -> bool
    requires { (seen chart.now).vertices ≤ most_vertices }
    ensures { result ≡ some (leaves_again (seen chart.now)) (seen chart.now).half_edges }
{
    let mut met = no_vertex();
    for h in 0..chart.half_edge_count() {
        if chart.face(h) == 0 {
            let v = chart.origin(h);
            if met[v] {
                return true;
            }
            met[v] = true;
        }
    }
    false
}

// 7: links broken.
#[tactic(auto, unfolding(crate::specs::Links::links_broken))]
pub fn links_broken(chart: &Chart) -> bool
    requires { (seen chart.now).vertices ≤ most_vertices }
    ensures { result ≡ links_broken (seen chart.now) }
{
    some_unlinked(chart)
        || some_stray_out(chart)
        || some_stray_adjacent(chart)
        || some_leaves_again(chart)
}
