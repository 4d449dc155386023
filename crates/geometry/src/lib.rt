// Side and circle, exact in 64 bits on the whole grid (01, "Side and circle"; math.rs).
#![tactic(auto)]

ghost use Rattle.std.specs.Prelude.{◌≡◌, pos, ◌-ℤ◌, ◌*ℤ◌};
ghost use Rattle.std.specs.Int.Signed.{lt_z};
ghost use Rattle.whole.specs.Bound.{Within};
ghost use Rattle.geometry.specs.Plane.{area_max, Near, vector_of, cross_of, dot_of, side, circle, on_open_segment, off_grid};
ghost use Rattle.geometry.specs.Grid.{at};

mod grid;

pub use grid::GridPlace;

// The grid's bound: coordinates run from -GRID to GRID.
pub const GRID: i64 = 10000;

const LOW: i64 = -GRID;

// A place of the plane, or a vector between two places, in whole numbers.
#[derive(Clone, Copy, PartialEq, Eq, Default)]
pub struct Place {
    pub x: i64,
    pub y: i64,
}

// The vector from p to q.
pub fn vector(p: GridPlace, q: GridPlace) -> Place
    ensures { result ≡ vector_of (at p) (at q) }
{
    Place {
        x: q.x - p.x,
        y: q.y - p.y,
    }
}

// The cross product u × v. `Near` is asked here, in `dot` and in `delaunay::is_past`: a type of a near vector would be a third one
// beside `Place` and `GridPlace`, with a conversion from each, for these three (no plainer).
#[tactic(auto, using(crate::proofs::Bounds::crosses))]
pub fn cross(u: Place, v: Place) -> i64
    requires first { Near u }
    requires second { Near v }
    ensures { result ≡ cross_of u v }
{
    u.x * v.y - u.y * v.x
}

// The dot product u · v.
#[tactic(auto, using(crate::proofs::Bounds::dots))]
fn dot(u: Place, v: Place) -> i64
    requires first { Near u }
    requires second { Near v }
    ensures { result ≡ dot_of u v }
{
    u.x * v.x + u.y * v.y
}

// The side of q at a to b: above 0 left, 0 on the line, below 0 right.
#[tactic(auto, unfolding(crate::specs::Plane::side))]
pub fn side_query(a: GridPlace, b: GridPlace, q: GridPlace) -> i64
    ensures { result ≡ side (at a) (at b) (at q) }
{
    cross(vector(a, b), vector(a, q))
}

// Whether q is strictly left of a to b.
pub fn is_on_left_side(a: GridPlace, b: GridPlace, q: GridPlace) -> bool
    ensures { result ≡ lt_z (pos 0) (side (at a) (at b) (at q)) }
{
    0 < side_query(a, b, q)
}

// The ends a and b as q sees them: the dot product of the vectors to them.
fn ends_seen(a: GridPlace, b: GridPlace, q: GridPlace) -> i64
    ensures { result ≡ dot_of (vector_of (at q) (at a)) (vector_of (at q) (at b)) }
{
    dot(vector(q, a), vector(q, b))
}

// Whether q is on the open segment from a to b: on its line, with the ends in opposite directions.
#[tactic(auto, using(crate::proofs::Bounds::tests), unfolding(crate::specs::Plane::on_open_segment))]
pub fn is_on_open_segment(a: GridPlace, b: GridPlace, q: GridPlace) -> bool
    ensures { result ≡ on_open_segment (at a) (at b) (at q) }
{
    side_query(a, b, q) == 0 && ends_seen(a, b, q) < 0
}

// s·d - t·e, for two sides and two dot products.
#[tactic(auto, using(crate::proofs::Bounds::minors))]
fn minor(s: i64, d: i64, t: i64, e: i64) -> i64
    requires s_in { Within area_max s }
    requires d_in { Within area_max d }
    requires t_in { Within area_max t }
    requires e_in { Within area_max e }
    ensures { result ≡ s *ℤ d -ℤ t *ℤ e }
{
    s * d - t * e
}

// Whether q is strictly inside the circle of the left-turning a, b, c. The determinant is a difference of two products: c and q
// by their sides of a to b, and by the ends as they see them.
#[tactic(auto, using(crate::proofs::Bounds::bounds))]
pub fn contained_in_circumference(a: GridPlace, b: GridPlace, c: GridPlace, q: GridPlace) -> bool
    ensures { result ≡ lt_z (pos 0) (circle (at a) (at b) (at c) (at q)) }
{
    let determinant = minor(
        side_query(a, b, q),
        ends_seen(a, b, c),
        side_query(a, b, c),
        ends_seen(a, b, q),
    );
    0 < determinant
}

// Whether a place is off the grid: 6 of a vertex, 13 of a load.
#[tactic(auto, unfolding(crate::specs::Plane::off_grid))]
pub fn off_grid(p: Place) -> bool
    ensures { result ≡ off_grid p }
{
    whole::is_outside(LOW, GRID, p.x) || whole::is_outside(LOW, GRID, p.y)
}
