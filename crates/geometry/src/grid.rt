// A place that is known to be on the grid.
ghost use Rattle.geometry.specs.Plane.{OnGrid, place_at};

use crate::Place;

// A place of the grid: its coordinates run from -GRID to GRID.
#[derive(Clone, Copy, PartialEq, Eq)]
pub struct GridPlace {
    pub x: i64,
    pub y: i64,
    pub ghost on_grid: { OnGrid (place_at x y) },
}

impl GridPlace {
    ghost use Rattle.std.specs.Prelude.{◌≡◌};
    ghost use Rattle.std.specs.Option.{option_map};
    ghost use Rattle.geometry.specs.Grid.{at, grid_place};

    // Off the grid there is none: 6 meets such a vertex, 13 such a load. An Option and no `TryFrom`: this is its one failure, and callers refuse differently.
    #[tactic(auto, using(crate::proofs::Bounds::grid_of))]
    pub fn new(x: i64, y: i64) -> Option<GridPlace>
        ensures { option_map at result ≡ grid_place x y }
    {
        if crate::off_grid(Place { x, y }) {
            return None;
        }
        Some(GridPlace { x, y })
    }
}

impl From<GridPlace> for Place {
    ghost use Rattle.std.specs.Prelude.{◌≡◌};
    ghost use Rattle.geometry.specs.Grid.{at};

    ghost from_gives = { λ p r. r ≡ at p };

    fn from(p: GridPlace) -> Place {
        Place { x: p.x, y: p.y }
    }
}
