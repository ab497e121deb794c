// An arc's rotations, many at a time: where they come to is known but for how far off it is, which is enough to count them.
ghost use Rattle.std.specs.Prelude.{◌≡◌, ◌*◌, ◌^◌, ◌≤◌, ◌<◌, IfSome};
ghost use Rattle.plane.specs.Directions.{UnitLong};
ghost use Rattle.turning.specs.Bounds.{Turns};
ghost use Rattle.leaps.specs.Leaps.{sway_of, Leaps, Comes, Leads, Ahead, Behind, Clears, Ends, Long, Moves};

use plane::Vector;
use plane::rotation::rotated;
use plane::vectors::{cross, dot, square};
use turning::Turning;

// Where an arc has come to: about which direction, how far off that is at most, and after how many rotations.
#[derive(Clone, Copy)]
pub struct Leap {
    pub direction: Vector,
    pub off: u64,
    pub turns: usize,
}

// How far a rotation by t takes a direction at most.
fn sway(t: Vector) -> u64
    requires { UnitLong t }
    ensures { result ≡ sway_of t }
{
    (0x4000_0000 - t.x).unsigned_abs() + t.y.unsigned_abs() + 2
}

// Whether z is n or more.
fn ahead(z: i64, n: u64) -> bool
    ensures { Ahead z n result }
{
    0 <= z && n <= z.unsigned_abs()
}

// Whether z is -n or less.
fn behind(z: i64, n: u64) -> bool
    ensures { Behind z n result }
{
    z < 0 && n <= z.unsigned_abs()
}

// Whether no direction within reach of d stops an arc towards e.
fn clear(d: Vector, e: Vector, reach: u64) -> bool
    requires { UnitLong d × UnitLong e × (reach < 2 ^ 33) }
    ensures { Clears d e reach result }
{
    let least = reach * 0x4000_0000 + 1;
    let z = cross(d, e);
    ahead(z, least) || behind(z, least) || behind(dot(d, e), least)
}

// The next leap: by eight rotations where they are clear, else by one, else none. A rotation by `eight` is eight by the step but for 63 at most, and each
// rotation of a direction that is off leaves it off by 3 more.
fn leap_on(r: Turning, eight: Vector, far: u64, s: Leap) -> Option<Leap>
    requires turns { Turns r × Leaps r.step 8 63 eight × (far ≡ sway_of r.step) × (sway_of r.step ≤ 2 ^ 27) }
    requires unit_long { UnitLong s.direction × (s.turns < 1527) × (s.off ≤ 9 * s.turns) }
    ensures { IfSome result (λ n. Leads r.step r.toward s.turns s.off s.direction n.turns n.off n.direction × (s.turns < n.turns)) }
{
    let d = s.direction;
    if clear(d, r.toward, s.off + 8 * far) {
        Some(Leap {
            direction: rotated(eight, d),
            off: s.off + 66,
            turns: s.turns + 8,
        })
    } else if clear(d, r.toward, s.off + far) {
        Some(Leap {
            direction: rotated(r.step, d),
            off: s.off + 3,
            turns: s.turns + 1,
        })
    } else {
        None
    }
}

// Where an arc from d comes to by leaps, until none is clear.
pub fn leapt(r: Turning, d: Vector) -> Leap
    requires { Turns r × UnitLong d × (sway_of r.step ≤ 2 ^ 27) }
    ensures { Comes r.step r.toward d result.turns result.off result.direction }
{
    let two = rotated(r.step, r.step);
    let four = rotated(two, two);
    let eight = rotated(four, four);
    let far = sway(r.step);
    let mut s = Leap {
        direction: d,
        off: 0,
        turns: 0,
    };
    // a leap is one rotation or eight, so what ends this is their sum, and no range
    while s.turns < 1527 {
        let Some(next) = leap_on(r, eight, far, s) else {
            return s;
        };
        s = next;
    }
    s
}

// Whether an arc by steps of t towards e stops at every direction that is at most so far off d.
pub fn ends(t: Vector, e: Vector, d: Vector, off: u64) -> bool
    requires { UnitLong t × UnitLong e × UnitLong d × (off < 2 ^ 14) }
    ensures { Ends t e d off result }
{
    let least = off * 0x4000_0000;
    let past = (off + 3) * 0x4000_0000;
    let next = rotated(t, d);
    behind(cross(next, e), past) && ahead(cross(d, e), least) && ahead(dot(d, e), least)
}

// Whether every direction that is at most so far off d is seven eighths as long as a unit.
pub fn long(d: Vector, off: u64) -> bool
    requires { UnitLong d × (off < 2 ^ 14) }
    ensures { Long d off result }
{
    let l = 0x3800_0000 + off;
    l * l <= square(d)
}

// Whether the steps are fine, and yet each rotation of a direction that long moves the point in it.
pub fn moves(r: Turning) -> bool
    requires { Turns r }
    ensures { Moves r result }
{
    let radius = r.radius.unsigned_abs();
    let least = 7 * r.step.y.unsigned_abs() / 16;
    sway(r.step) <= 0x800_0000 && 0x4000_0000 + radius < least * radius
}
