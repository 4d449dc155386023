// The refusals 6 to 11 of three tables, and their half-edges and faces taken over as unsigned numbers once 6 has let them pass.
#![tactic(auto)]

ghost use Rattle.std.specs.Prelude.{◌≡◌, Err, ◌*◌, ◌≤◌, ◌%◌, length};
ghost use Rattle.refusal.specs.Number.{refusal_of};
ghost use Rattle.chart.specs.Limits.{most_vertices};
ghost use Rattle.chart.specs.Tables.{rows, unsigned_all};
ghost use Rattle.chart.specs.Seen.{seen};
ghost use Rattle.checks.specs.Taken.{Unsigned};
ghost use Rattle.checks.specs.Checks.{chart_refusal, tables_refusal, told};

use chart::Chart;
use refusal::Refusal;

// A table of numbers that 6 has let pass, as unsigned ones: none is negative, so that this is a plain copy. It goes by the index: of the elements that an
// adapter of `iter_mut`, as `zip`, hands out nothing is known afterwards.
// Not one with its twin `inserting::hand_over`: one for both would take the cast as a closure, and owe more clauses about it than the two lines it saves.
fn take_over(signed: &[i64], table: &mut [usize])
    requires same_length { length table.old ≡ length signed.now }
    requires not_negative { Unsigned signed.now }
    ensures { table.new ≡ unsigned_all signed.now }
{
    for (i, to) in table.iter_mut().enumerate() {
        *to = signed[i] as usize;
    }
}

// A refusal that is met. A call, and not compiled into the scans: else each of their turns sets both halves of the Result that the scan may end with.
#[cold]
#[inline(never)]
fn met(refusal: Refusal) -> Result<(), Refusal>
    ensures { result ≡ Err refusal }
{
    Err(refusal)
}

// 7 to 11, of a chart whose numbers are in range. A bound on what is lent, and no part of the type: a `Chart` is of any size.
#[tactic(auto, using(crate::proofs::Circles::told_by_edges), unfolding(crate::specs::Checks::chart_refusal))]
fn chart_refusal(chart: &Chart) -> Result<(), Refusal>
    requires { (seen chart.now).vertices ≤ most_vertices }
    ensures { refusal_of result ≡ chart_refusal (seen chart.now) }
{
    if links::links_broken(chart) {
        return met(Refusal::Links);
    }
    if delaunay::some_share_place(chart) {
        return met(Refusal::Places);
    }
    if delaunay::some_not_left(chart) {
        return met(Refusal::Turn);
    }
    if delaunay::some_overhung(chart) {
        return met(Refusal::Rim);
    }
    // 11 of what is left: across one edge (crate nearby, `crowded-pressed`)
    if across::some_pressed(chart) {
        return met(Refusal::Circle);
    }
    Ok(())
}

// 6 to 11, of three tables; where none meets them, edges and faces have their numbers as unsigned ones.
// The tables come apart, as C lends them: they are no `Chart` before 6 has let them pass. The rooms are lent: no heap.
#[tactic(auto, using(crate::specs::Taken::taken), unfolding(crate::specs::Checks::tables_refusal))]
pub fn tables_refusal(
    vertices: &[i64],
    edgecells: &[i64],
    facecells: &[i64],
    edges: &mut [usize],
    faces: &mut [usize],
) -> Result<(), Refusal>
    requires vertex_count { rows vertices.now ≤ most_vertices }
    requires pairs { rows edgecells.now % 2 ≡ 0 }
    requires edge_room { length edges.old ≡ length edgecells.now }
    requires face_room { length faces.old ≡ length facecells.now }
    requires whole_rows { length edgecells.now ≡ 4 * rows edgecells.now }
    ensures { told (tables_refusal vertices.now edgecells.now facecells.now) vertices.now (unsigned_all edgecells.now) (unsigned_all facecells.now) ≡ told (refusal_of result) vertices.now edges.new faces.new }
{
    if ranges::out_of_range(vertices, edgecells, facecells) {
        return met(Refusal::Range);
    }
    take_over(edgecells, edges);
    take_over(facecells, faces);
    chart_refusal(&Chart {
        vertices,
        edges,
        faces,
    })
}
