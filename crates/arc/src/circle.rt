// An arc between two points at about one distance from its centre, and a circle, which is two of them.
ghost use Rattle.std.specs.Prelude.{◌≡◌};
ghost use Rattle.runs.specs.Runs.{Room};
ghost use Rattle.plane.specs.Vectors.{from_to};
ghost use Rattle.plane.specs.Directions.{UnitLong, direction_of};
ghost use Rattle.turning.specs.Edges.{edge_numbers};
ghost use Rattle.turning.specs.Arcs.{swept_of, east_of, west_of, circle_of};
ghost use Rattle.turning.specs.Bounds.{Centre, Radius, About};
ghost use Rattle.folds.specs.Pens.{Lays};

use crate::fine::fine_circle;
use folds::Pen;
use folds::folding::fold;
use half_turn::finest::finest;
use leaps::turns::turns;
use plane::{Point, Vector};
use turning::Turning;

// Due east and due west: where the two arcs of a circle start.
pub const EASTWARD: Vector = Vector {
    x: 0x4000_0000,
    y: 0,
};

pub const WESTWARD: Vector = Vector {
    x: -0x4000_0000,
    y: 0,
};

// From p, in the direction d, to q, in the direction e, about c by steps of the pen, the inner points at the radius.
pub fn swept(
    out: &mut [i32],
    at: usize,
    pen: Pen,
    c: Point,
    radius: i64,
    p: Point,
    d: Vector,
    q: Point,
    e: Vector,
) -> usize
    requires unit_long { UnitLong pen.step × Centre c × Radius radius × About c p × About c q }
    requires unit_long_2 { UnitLong d × UnitLong e × (d ≡ direction_of (from_to c p)) × (e ≡ direction_of (from_to c q)) }
    requires room { Room edge_numbers at (swept_of pen.step c radius p q) }
    ensures { Lays pen.step pen.folds out.old at (swept_of pen.step c radius p q) out.new result }
{
    let r = Turning {
        step: pen.step,
        centre: c,
        radius,
        to: q,
        toward: e,
    };
    if pen.folds {
        fold(out, at, r, d, p)
    } else {
        turns(out, at, r, d, p)
    }
}

// The point of a circle farthest to the east.
pub fn east(c: Point, radius: i64) -> Point
    requires { Centre c × Radius radius }
    ensures { result ≡ east_of c radius }
{
    Point {
        x: c.x + radius,
        y: c.y,
    }
}

// The point of a circle farthest to the west.
pub fn west(c: Point, radius: i64) -> Point
    requires { Centre c × Radius radius }
    ensures { result ≡ west_of c radius }
{
    Point {
        x: c.x - radius,
        y: c.y,
    }
}

// A circle by rotations. Its arcs are alike: where the first is only counted, that counts the second.
fn turned_circle(out: &mut [i32], at: usize, pen: Pen, c: Point, radius: i64) -> usize
    requires unit_long { UnitLong pen.step × Centre c × Radius radius }
    requires room { Room edge_numbers at (circle_of pen.step c radius) }
    ensures { Lays pen.step pen.folds out.old at (circle_of pen.step c radius) out.new result }
{
    if radius <= 1 {
        return at;
    }
    let e = east(c, radius);
    let w = west(c, radius);
    let n = swept(out, at, pen, c, radius, e, EASTWARD, w, WESTWARD);
    if !pen.folds && out.len() <= at {
        n + (n - at)
    } else {
        swept(out, n, pen, c, radius, w, WESTWARD, e, EASTWARD)
    }
}

// A circle, or nothing where the radius is 1 or less: from the table, where that has its directions.
pub fn circle(out: &mut [i32], at: usize, pen: Pen, c: Point, radius: i64) -> usize
    requires unit_long { UnitLong pen.step × Centre c × Radius radius }
    requires room { Room edge_numbers at (circle_of pen.step c radius) }
    ensures { Lays pen.step pen.folds out.old at (circle_of pen.step c radius) out.new result }
{
    if finest(pen.step) {
        fine_circle(out, at, pen, c, radius)
    } else {
        turned_circle(out, at, pen, c, radius)
    }
}
