// A new vertex put into a chart's tables: joined to the corners around it, then edges are flipped about it.
// A place and its value go side by side, as a load's place and method do: 13 looks at both, and a type of the two would be no plainer.
#![tactic(auto)]

ghost use Rattle.std.specs.Prelude.{◌≡◌, ◌*◌, ◌≤◌, cond, IfOk, OnErr, length};
ghost use Rattle.geometry.specs.Grid.{at};
ghost use Rattle.chart.specs.Limits.{most_vertices, most_half_edges, most_faces};
ghost use Rattle.refusal.specs.Number.{refusal_of};
ghost use Rattle.reading.specs.Reading.{load_of};
ghost use Rattle.accepted.specs.Accepted.{Accepted};
ghost use Rattle.locate.specs.Location.{location_of};
ghost use Rattle.patches.specs.Wired.{Wired};
ghost use Rattle.rewire.specs.Tables.{Natural, out_cell, KeepsOuts, NewOut};
ghost use Rattle.rewire.specs.Front.{shown, Roomy, SameLent};
ghost use Rattle.sites.specs.Insertion.{no_site, insert_refusal};
ghost use Rattle.sites.specs.Askable.{Askable};
ghost use Rattle.sites.specs.Joined.{Joined};
ghost use Rattle.insertion.specs.Outcome.{Stands, joined_at, NaturalOuts, Extends};

use geometry::{GridPlace, Place};
use ranges::Counts;
use refusal::Refusal;
use rewire::Tables;
use sites::Site;

// A new vertex joined to the corners about its site.
fn join(tables: &mut Tables, site: Site, q: Place, value: i64)
    requires room { Roomy tables.old }
    requires wired { Wired (shown tables.old) }
    requires stands { Stands (shown tables.old) site }
    ensures joined { shown tables.new ≡ joined_at (shown tables.old) site q value }
    ensures outs { NewOut tables.old.vertex_count tables.old.vertices.now tables.new.vertices.now }
    ensures lent { SameLent tables.old tables.new }
{
    match site {
        Site::Inside(e) => tables.insert_into_triangle(e, q, value),
        Site::Across(e) => tables.split_edge(e, q, value),
    }
}

// A new vertex at q into the tables; 26 where it has no site.
// By answers, what the check does not find: what the site and the flips leave of the chart in front of the tables.
pub fn insert_vertex(tables: &mut Tables, q: GridPlace, value: i64) -> Result<(), Refusal>
    requires room { Roomy tables.old }
    requires accepted { Accepted (shown tables.old) }
    requires askable { Askable (shown tables.old) (at q) value }
    ensures refusal { refusal_of result ≡ cond (no_site (shown tables.old) (location_of (shown tables.old) (at q))) 26 0 }
    ensures joined { IfOk result (λ u. Joined (shown tables.old) (at q) value (shown tables.new)) }
    ensures outs { KeepsOuts tables.old.vertices.now tables.new.vertices.now }
    ensures new_out { IfOk result (λ u. Natural (out_cell tables.new.vertices.now tables.old.vertex_count)) }
    ensures lent { SameLent tables.old tables.new }
    ensures refused { OnErr result (tables.new ≡ tables.old) }
{
    let n = tables.vertex_count;
    let site = sites::site_at(&tables.chart(), q)?;
    join(tables, site, q.into(), value);
    legal::legalize(tables, n);
    Ok(())
}

// The body of a chart whose head has these counts is read and checked, and a new vertex at q is put into it; or the refusal 3, 5 to 11, 13, 25 or 26.
// The new chart's tables stand in the first elements of the lent slices, which have room for the largest chart.
pub fn extend<'a>(
    text: &[u8],
    counts: Counts,
    q: Place,
    value: i64,
    vertices: &'a mut [i64],
    edges: &'a mut [usize],
    faces: &'a mut [usize],
) -> Result<Tables<'a>, Refusal>
    requires room { (4 * most_vertices ≤ length vertices.old) × (4 * most_half_edges ≤ length edges.old) × (most_faces ≤ length faces.old) }
    ensures extends { Extends (load_of counts.vertices counts.half_edges counts.faces text.now) q value result }
    ensures lent { IfOk result (λ t. (t.vertices.ghost_name ≡ vertices.entry.ghost_name) × (t.edges.ghost_name ≡ edges.entry.ghost_name) × (t.faces.ghost_name ≡ faces.entry.ghost_name)) }
    ensures long { IfOk result (λ t. (length t.vertices.now ≡ length vertices.old) × (length t.edges.now ≡ length edges.old) × (length t.faces.now ≡ length faces.old)) }
{
    reading::load(text, counts, vertices, edges, faces)?;
    let place = sites::ask(q, value, counts.vertices)?;
    let mut tables = Tables {
        vertices,
        edges,
        faces,
        vertex_count: counts.vertices,
        half_edge_count: counts.half_edges,
        face_count: counts.faces,
    };
    insert_vertex(&mut tables, place, value)?;
    Ok(tables)
}
