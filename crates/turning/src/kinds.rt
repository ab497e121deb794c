// What kind of arc runs between two points: how far it turns, whether it has no edges, whether it is a circle.
ghost use Rattle.std.specs.Prelude.{◌≡◌};
ghost use Rattle.plane.specs.Vectors.{Short};
ghost use Rattle.plane.specs.Directions.{UnitLong};
ghost use Rattle.turning.specs.Arcs.{sweep_of, empty_of, full_of};

use crate::Sweep;
use plane::vectors::{cross, dot};
use plane::{Point, Vector};

// How far an arc turns from the ray m to the ray n; the caller's choice where the rays are aligned.
pub fn sweep(m: Vector, n: Vector, choice: Sweep) -> Sweep
    requires { Short m × Short n }
    ensures { result ≡ sweep_of m n choice }
{
    let z = cross(m, n);
    if 0 < z {
        Sweep::Minor
    } else if z < 0 {
        Sweep::Major
    } else if dot(m, n) < 0 {
        Sweep::Minor
    } else {
        choice
    }
}

// Whether an arc from p to q about c has no edges.
pub fn empty(w: Sweep, c: Point, p: Point, q: Point) -> bool
    ensures { result ≡ empty_of w c p q }
{
    p == c || q == c || w == Sweep::Minor && p == q
}

// Whether an arc from the direction d to e is a circle.
pub fn full(w: Sweep, d: Vector, e: Vector) -> bool
    requires { UnitLong d × UnitLong e }
    ensures { result ≡ full_of w d e }
{
    w == Sweep::Major && 0 <= cross(d, e) && 0 < dot(d, e)
}
