// A direction turned by a step, and scaled by a radius.
ghost use Rattle.std.specs.Prelude.{◌≡◌, ◌^◌, ◌≤◌, pos, nat_abs, ◌+ℤ◌};
ghost use Rattle.std.specs.Int.Signed.{quot_z, shr_z};
ghost use Rattle.whole.specs.Sizes.{Size};
ghost use Rattle.number.specs.MulDiv.{mul_div_of};
ghost use Rattle.plane.specs.Directions.{UnitLong, rotated_of};
ghost use Rattle.plane.specs.Swings.{swing_of, heading_of, Swings};

use crate::Vector;
use crate::vectors::{difference, sum, times};

// A direction turned by a step, its components not yet divided by 2^30.
#[derive(Clone, Copy)]
pub struct Swing {
    pub x: i64,
    pub y: i64,
}

// z / 2^30, towards zero.
fn part(z: i64) -> i64
    ensures { result ≡ quot_z z (pos (2 ^ 30)) }
{
    z / 0x4000_0000
}

// The direction v turned by the step t: each component divided by 2^30, towards zero.
pub fn rotated(t: Vector, v: Vector) -> Vector
    requires { UnitLong t × UnitLong v }
    ensures { result ≡ rotated_of t v }
{
    Vector {
        x: part(difference(t.x, v.x, t.y, v.y)),
        y: part(sum(t.y, v.x, t.x, v.y)),
    }
}

// The direction v turned by the step t, not yet divided. What turns many times keeps this: the division then stands in front of the products,
// whose factors the compiler so knows to be short.
pub fn swung(t: Vector, v: Vector) -> Swing
    requires { UnitLong t × UnitLong v }
    ensures { result ≡ swing_of t v }
{
    Swing {
        x: difference(t.x, v.x, t.y, v.y),
        y: sum(t.y, v.x, t.x, v.y),
    }
}

// Four times z, and all but four of 2^32 more where that is below 0: so its upper half is z / 2^30, towards zero.
fn raised(z: i64) -> i64
    requires { Size (2 ^ 60) z }
    ensures { shr_z result (2 ^ 32) ≡ quot_z z (pos (2 ^ 30)) }
{
    let four = 4 * z;
    if z < 0 { four + 0xffff_fffc } else { four }
}

// z / 2^30, towards zero.
fn upper(z: i64) -> i64
    requires { Size (2 ^ 60) z }
    ensures { result ≡ quot_z z (pos (2 ^ 30)) }
{
    raised(z) >> 32
}

// The direction that a swing comes to.
pub fn heading(s: Swing) -> Vector
    requires { Swings s }
    ensures { result ≡ heading_of s }
{
    Vector {
        x: upper(s.x),
        y: upper(s.y),
    }
}

// (z + h) / 2^30, rounded down.
fn rounded(z: i64, h: i64) -> i64
    requires { Size (2 ^ 60) z × Size (2 ^ 60) h }
    ensures { result ≡ shr_z (z +ℤ h) (2 ^ 30) }
{
    (z + h) >> 30
}

// A direction's component scaled by a radius: d * r / 2^30, to the nearest whole number, halves away from zero; so a negative product, which is
// rounded down as well, gets one less than a half.
pub fn scaled(d: i64, r: u64) -> i64
    requires { (nat_abs d ≤ 2 ^ 30) × (r ≤ 2 ^ 28) }
    ensures { result ≡ mul_div_of d (pos r) (2 ^ 30) }
{
    let z = times(d, r as i64);
    if d < 0 {
        rounded(z, 0x1fff_ffff)
    } else {
        rounded(z, 0x2000_0000)
    }
}

// (c * 2^30 + z + h) / 2^30, rounded down.
fn lowered(c: i64, z: i64, h: i64) -> i64
    requires { Size (2 ^ 28) c × Size (2 ^ 60) z × Size (2 ^ 60) h }
    ensures { result ≡ c +ℤ shr_z (z +ℤ h) (2 ^ 30) }
{
    (c * 0x4000_0000 + (z + h)) >> 30
}

// A coordinate moved by a direction's component scaled by a radius, where z is what the component was divided from: below 0 it gets one less than
// a half, as `scaled` has it, since a component of 0 is scaled to 0 either way.
pub fn landed(c: i64, z: i64, d: i64, r: u64) -> i64
    requires { Size (2 ^ 28) c × (d ≡ quot_z z (pos (2 ^ 30))) × (nat_abs d ≤ 2 ^ 30) × (r ≤ 2 ^ 28) }
    ensures { result ≡ c +ℤ mul_div_of d (pos r) (2 ^ 30) }
{
    let p = times(d, r as i64);
    if z < 0 {
        lowered(c, p, 0x1fff_ffff)
    } else {
        lowered(c, p, 0x2000_0000)
    }
}
