// Whether a new vertex can be put into a chart (13, 25), and where it goes in (26).
#![tactic(auto)]

ghost use Rattle.std.specs.Prelude.{◌≡◌, IfOk};
ghost use Rattle.geometry.specs.Grid.{at};
ghost use Rattle.chart.specs.Seen.{seen};
ghost use Rattle.refusal.specs.Number.{refusal_of};
ghost use Rattle.accepted.specs.Accepted.{Accepted};
ghost use Rattle.sites.specs.Askable.{ask_refusal};
ghost use Rattle.sites.specs.Site.{site_at};

use chart::Chart;
use geometry::{GridPlace, Place};
use locate::Location;
use ranges::VALUE_MAX;
use refusal::Refusal;

// 13 of a place off the grid or a value out of range, 25 of a chart of v vertices that is full; or the place.
pub fn ask(q: Place, value: i64, v: usize) -> Result<GridPlace, Refusal>
    ensures refusal { refusal_of result ≡ ask_refusal q value v }
    ensures place { IfOk result (λ p. at p ≡ q) }
{
    let Some(place) = GridPlace::new(q.x, q.y) else {
        return Err(Refusal::OffGrid);
    };
    if whole::is_outside(0, VALUE_MAX, value) {
        return Err(Refusal::OffGrid);
    }
    if v == 128 {
        return Err(Refusal::ChartFull);
    }
    Ok(place)
}

// Where a new vertex goes in: into the face of a half-edge, or into the edge of one.
#[derive(Clone, Copy, PartialEq, Eq)]
pub enum Site {
    Inside(usize),
    Across(usize),
}

// The site of a new vertex at q; 26 where there is none.
// By answers, what the check does not find: a number in range under an arm of the location.
#[tactic(auto, unfolding(crate::specs::Site::site_at, crate::specs::Site::site_of))]
pub fn site_at(chart: &Chart, q: GridPlace) -> Result<Site, Refusal>
    requires { Accepted (seen chart.now) }
    ensures { result ≡ site_at (seen chart.now) (at q) }
{
    match locate::locate(chart, q) {
        Location::OnEdge(h) if !neighbors::is_part_of_convex_hull(chart, h as usize) => {
            Ok(Site::Across(h as usize))
        }
        Location::OnFace(f) => Ok(Site::Inside(chart.adjacent(f as usize))),
        _ => Err(Refusal::NoSite),
    }
}
