// An arc's turning: rotation after rotation, each direction scaled by the radius, until the end's direction is reached.
ghost use Rattle.std.specs.Prelude.{◌≡◌};
ghost use Rattle.runs.specs.Runs.{Runs, Room, put};
ghost use Rattle.plane.specs.Vectors.{Near, cross_of};
ghost use Rattle.plane.specs.Directions.{UnitLong, scaled_of};
ghost use Rattle.turning.specs.Edges.{edge_numbers};
ghost use Rattle.turning.specs.Arcs.{near_of, stops_of, turns_of};
ghost use Rattle.turning.specs.Bounds.{Centre, Radius, Turns};

use crate::Turning;
use crate::edges::edge;
use plane::rotation::{heading, scaled, swung};
use plane::vectors::{cross, dot};
use plane::{Point, Vector};

// After so many rotations an arc stops in any case.
pub const MOST_ROTATIONS: usize = 1536;

// Whether the direction d is near the end's direction e, where z is their cross product.
fn near(z: i64, d: Vector, e: Vector) -> bool
    requires { UnitLong d × UnitLong e × (z ≡ cross_of d e) }
    ensures { result ≡ near_of d e }
{
    0 <= z && 0 <= dot(d, e)
}

// Whether an arc stops before it turns from d to next, where e is the end's direction and z the cross product of d and e, which is known from
// the turn before.
pub fn stops(z: i64, d: Vector, next: Vector, e: Vector) -> bool
    requires { UnitLong d × UnitLong next × UnitLong e × (z ≡ cross_of d e) }
    ensures { result ≡ stops_of d next e }
{
    cross(next, e) <= 0 && near(z, d, e)
}

// The point in the direction d, at the radius from the centre.
pub fn point_at(c: Point, radius: i64, d: Vector) -> Point
    requires { Centre c × Radius radius × UnitLong d }
    ensures { result ≡ scaled_of c radius d }
{
    let r = radius as u64;
    Point {
        x: c.x + scaled(d.x, r),
        y: c.y + scaled(d.y, r),
    }
}

// From the point p in the direction d: the edges to the inner points, at most 1,536 of them, and to the end.
pub fn written(out: &mut [i32], at: usize, r: Turning, d: Vector, p: Point) -> usize
    requires turns { Turns r }
    requires unit_long { UnitLong d × Near p }
    requires room { Room edge_numbers at (turns_of 1536 r d p) }
    ensures { Runs put edge_numbers out.old at (turns_of 1536 r d p) out.new result }
{
    let mut dir = d;
    let mut cur = p;
    let mut n = at;
    let mut z = cross(dir, r.toward);
    let mut s = swung(r.step, dir);
    for _ in 0..MOST_ROTATIONS {
        let next = heading(s);
        if stops(z, dir, next, r.toward) {
            return edge(out, n, cur, r.to);
        }
        let q = point_at(r.centre, r.radius, next);
        n = edge(out, n, cur, q);
        z = cross(next, r.toward);
        s = swung(r.step, next);
        dir = next;
        cur = q;
    }
    edge(out, n, cur, r.to)
}
