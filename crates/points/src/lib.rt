// Points and projections in f64, as point.rs and math.rs have them, and the chart's whole numbers taken over into f64.
// That a number is below its count, each function asks: a type of a number with its chart would be no plainer.
#![tactic(auto)]

ghost use Rattle.std.specs.Prelude.{◌≡◌, false, ◌<◌, pos};
ghost use Rattle.whole.specs.Bound.{Within, outside};
ghost use Rattle.geometry.specs.Grid.{at};
ghost use Rattle.chart.specs.Tables.{rows, value_of};
ghost use Rattle.chart.specs.Seen.{seen};
ghost use Rattle.ranges.specs.Ranges.{value_max};
ghost use Rattle.points.specs.Floats.{exact_max, real_of};
ghost use Rattle.points.specs.Points.{point_of, point_add, point_length2, point_sub, point_dot, project_point, relative_position, circumcenter_of};

use chart::Chart;
use geometry::GridPlace;
use std::ops::{Add, Sub};

// Beside `gradient::Gradient` and `Vector3`: a point, a slope and a normal are no one type.
#[derive(Clone, Copy)]
pub struct Point2 {
    pub x: f64,
    pub y: f64,
}

// Where a point's projection lies along an edge: factor out of length_2.
#[derive(Clone, Copy)]
pub struct PointProjection {
    pub factor: f64,
    pub length_2: f64,
}

impl Point2 {
    pub fn length2(self) -> f64
        ensures { result ≡ point_length2 self }
    {
        self.x * self.x + self.y * self.y
    }

    pub fn dot(self, other: Point2) -> f64
        ensures { result ≡ point_dot self other }
    {
        self.x * other.x + self.y * other.y
    }
}

impl Add for Point2 {
    type Output = Point2;

    ghost add_gives = { λ p o r. r ≡ point_add p o };

    fn add(self, other: Point2) -> Point2 {
        Point2 {
            x: self.x + other.x,
            y: self.y + other.y,
        }
    }
}

impl Sub for Point2 {
    type Output = Point2;

    ghost sub_gives = { λ p o r. r ≡ point_sub p o };

    fn sub(self, other: Point2) -> Point2 {
        Point2 {
            x: self.x - other.x,
            y: self.y - other.y,
        }
    }
}

// A place of the grid as a point.
impl From<GridPlace> for Point2 {
    ghost from_gives = { λ p r. r ≡ point_of (at p) };

    fn from(p: GridPlace) -> Point2 {
        Point2 {
            x: to_f64(p.x),
            y: to_f64(p.y),
        }
    }
}

impl PointProjection {
    // 0 at the edge's start, 1 at its end. A projection of project_point has no negative length_2; the Rust's other way is kept.
    pub fn relative_position(self) -> f64
        ensures { result ≡ relative_position self }
    {
        if self.length_2 >= 0.0 {
            self.factor / self.length_2
        } else {
            let l = -self.length_2;
            let f = -self.factor;
            (l - f) / l
        }
    }
}

pub fn project_point(p1: Point2, p2: Point2, query: Point2) -> PointProjection
    ensures { result ≡ project_point p1 p2 query }
{
    let dir = p2 - p1;
    PointProjection {
        factor: (query - p1).dot(dir),
        length_2: dir.length2(),
    }
}

// The center of the circle through three points. The Rust returns its squared radius too, which nothing here uses.
#[tactic(auto, unfolding(crate::specs::Points::circumcenter_of))]
pub fn circumcenter(v0: Point2, v1: Point2, v2: Point2) -> Point2
    ensures { result ≡ circumcenter_of v0 v1 v2 }
{
    let b = v1 - v0;
    let c = v2 - v0;
    let one = 1.0;
    let two = one + one;
    let d = two * (b.x * c.y - c.x * b.y);
    let len_b = b.dot(b);
    let len_c = c.dot(c);
    let d_inv = one / d;
    let x = (len_b * c.y - len_c * b.y) * d_inv;
    let y = (-len_b * c.x + len_c * b.x) * d_inv;
    Point2 { x, y } + v0
}

// The one cast of a whole number: `as` is the machine's own instruction, where nearest_i64_to_f64 is six times slower. f64 is `From` no i64.
pub fn to_f64(z: i64) -> f64
    requires { Within exact_max z }
    ensures { result ≡ real_of z }
{
    z as f64
}

// The point of vertex v.
pub fn position(chart: &Chart, v: usize) -> Point2
    requires { v < (seen chart.now).vertices }
    ensures { result ≡ point_of ((seen chart.now).place v) }
{
    Point2::from(chart.place(v))
}

// The value of vertex v, which row 6 has let pass. It takes the one table: a chart would ask the same of every vertex.
pub fn value(vertices: &[i64], v: usize) -> f64
    requires vertex { v < rows vertices.now }
    requires in_range { outside (pos 0) (pos value_max) (value_of vertices.now v) ≡ false }
    ensures { result ≡ real_of (value_of vertices.now v) }
{
    to_f64(chart::value_of(vertices, v))
}
