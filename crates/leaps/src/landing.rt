// Where an arc's last inner direction is known but for how far off it is: whether the point in it surely is, or surely is not, the arc's end.
ghost use Rattle.std.specs.Prelude.{◌≡◌, ◌^◌, ◌≤◌, ◌+ℤ◌};
ghost use Rattle.whole.specs.Sizes.{Size};
ghost use Rattle.number.specs.MulDiv.{mul_div_of};
ghost use Rattle.plane.specs.Directions.{UnitLong};
ghost use Rattle.turning.specs.Bounds.{Radius, Turns};
ghost use Rattle.leaps.specs.Landings.{Lowest, Highest, Passes, Meets, Misses, Hits};

use plane::Vector;
use plane::rotation::scaled;
use turning::Turning;

// The lowest component that a direction can have where it lies at most `off` from a; none has one below -2^30.
fn lowest(a: i64, off: u64) -> i64
    requires { Size (2 ^ 30) a × (off ≤ 2 ^ 20) }
    ensures { Lowest a off result }
{
    (a - off as i64).max(-0x4000_0000)
}

// The highest; none has one above 2^30.
fn highest(a: i64, off: u64) -> i64
    requires { Size (2 ^ 30) a × (off ≤ 2 ^ 20) }
    ensures { Highest a off result }
{
    (a + off as i64).min(0x4000_0000)
}

// The coordinate at the radius from c in a direction with the component d.
fn coordinate(c: i64, radius: i64, d: i64) -> i64
    requires { Size (2 ^ 28) c × Radius radius × Size (2 ^ 30) d }
    ensures { result ≡ c +ℤ mul_div_of d radius (2 ^ 30) }
{
    c + scaled(d, radius as u64)
}

// Whether no component within `off` of a gives the coordinate `to`.
fn passes(c: i64, radius: i64, a: i64, off: u64, to: i64) -> bool
    requires { Size (2 ^ 28) c × Radius radius × Size (2 ^ 30) a × (off ≤ 2 ^ 20) }
    ensures { Passes c radius a off to result }
{
    to < coordinate(c, radius, lowest(a, off)) || coordinate(c, radius, highest(a, off)) < to
}

// Whether every component within `off` of a gives the coordinate `to`.
fn meets(c: i64, radius: i64, a: i64, off: u64, to: i64) -> bool
    requires { Size (2 ^ 28) c × Radius radius × Size (2 ^ 30) a × (off ≤ 2 ^ 20) }
    ensures { Meets c radius a off to result }
{
    coordinate(c, radius, lowest(a, off)) == to && coordinate(c, radius, highest(a, off)) == to
}

// Whether the point in every direction that lies at most `off` from d is surely not the arc's end.
pub fn misses(r: Turning, d: Vector, off: u64) -> bool
    requires { Turns r × UnitLong d × (off ≤ 2 ^ 20) }
    ensures { Misses r d off result }
{
    passes(r.centre.x, r.radius, d.x, off, r.to.x) || passes(r.centre.y, r.radius, d.y, off, r.to.y)
}

// Whether it is surely the arc's end.
pub fn hits(r: Turning, d: Vector, off: u64) -> bool
    requires { Turns r × UnitLong d × (off ≤ 2 ^ 20) }
    ensures { Hits r d off result }
{
    meets(r.centre.x, r.radius, d.x, off, r.to.x) && meets(r.centre.y, r.radius, d.y, off, r.to.y)
}
