// The direction of a vector, by a guess that exact tests settle, and the step of a grade.
ghost use Rattle.std.specs.Prelude.{◌≡◌, ◌+◌, ◌*◌, ◌^◌, ◌<◌, ◌≤◌, leb};
ghost use Rattle.number.specs.Root.{root_of};
ghost use Rattle.plane.specs.Vectors.{Short, square_of};
ghost use Rattle.plane.specs.Directions.{part_of, direction_of, step_of};
ghost use Rattle.plane.specs.Swings.{Settles, Measures};

use crate::Vector;
use crate::vectors::square;
use number::guess::{level, reciprocal_root};
use number::root::root;
use number::sign::signed;
use number::wide::{high, product};

// Whether n * n * s <= c * c * 2^60.
fn within(n: u64, c: u64, s: u64) -> bool
    requires { (n ≤ 2 ^ 31) × (c ≤ 2 ^ 31) }
    ensures { result ≡ leb (n * n * s) (c * c * 2 ^ 60) }
{
    product(n * n, s) <= product(c * c, 0x1000_0000_0000_0000)
}

// The first number from g down that is within.
fn down(g: u64, c: u64, s: u64) -> u64
    requires { (g ≤ 2 ^ 30) × (c ≤ 2 ^ 30) }
    ensures { (result ≤ 2 ^ 30) × (result * result * s ≤ c * c * 2 ^ 60) }
{
    let mut n = g;
    // a search, which ends where its test does: there is no range to go over
    while !within(n, c, s) {
        n -= 1;
    }
    n
}

// The last number from g up that is within.
fn up(g: u64, c: u64, s: u64) -> u64
    requires { (g ≤ 2 ^ 30) × (g * g * s ≤ c * c * 2 ^ 60) × (c ≤ 2 ^ 30) × (c * c ≤ s) × (0 < s) }
    ensures { (result ≡ part_of c s) × (result ≤ 2 ^ 30) }
{
    let mut n = g;
    // as above
    while within(n + 1, c, s) {
        n += 1;
    }
    n
}

// A number near c * 2^30 over the root of s, with h near 2^93 over the root of s * 4^k.
fn guess(c: u64, k: u32, h: u64) -> u64
    requires { k ≤ 31 }
    ensures { result ≤ 2 ^ 30 }
{
    high(c << (1 + k), h).min(0x4000_0000)
}

// Whether n is surely the largest with n * n * t <= c * c * 2^60, by upper limbs alone: what n * n * t leaves of c * c * 2^60 is more than
// nothing and less than (2 * n + 1) * t.
fn settled(n: u64, c: u64, t: u64) -> bool
    requires { (n ≤ 2 ^ 30) × (c < 2 ^ 32) }
    ensures { Settles n c t result }
{
    let p = high(n * n, t);
    let e = c * c / 16;
    let d = (2 * n + 1) * (t / 0x1_0000_0000) / 0x1_0000_0000;
    p < e && e < p + d
}

// The size of a direction's component: the largest n with n * n * s <= c * c * 2^60, where s is the squared length.
fn part(c: u64, l: Length) -> u64
    requires { (c ≤ 2 ^ 30) × (c * c ≤ l.square) × (0 < l.square) × (l.level ≤ 31) × (l.square * 4 ^ l.level < 2 ^ 64) }
    ensures { (result ≡ part_of c l.square) × (result ≤ 2 ^ 30) }
{
    let s = l.square;
    let k = l.level;
    let g = guess(c, k, l.reciprocal);
    if settled(g, c << k, s << (2 * k)) {
        g
    } else {
        up(down(g, c, s), c, s)
    }
}

// What a direction is taken by: the squared length, its level, and a number near the reciprocal of its root.
#[derive(Clone, Copy)]
pub struct Length {
    pub square: u64,
    pub level: u32,
    pub reciprocal: u64,
}

// The length of a vector that is not zero.
pub fn measured(v: Vector) -> Length
    requires { Short v × (0 < square_of v) }
    ensures { Measures v result }
{
    let square = square(v);
    let level = level(square);
    Length {
        square,
        level,
        reciprocal: reciprocal_root(square << (2 * level)),
    }
}

// A length rounded down: the root of its square, from a guess that the reciprocal gives.
pub fn rounded(l: Length) -> u32
    requires { l.level ≤ 31 }
    ensures { result ≡ root_of l.square }
{
    let near = high(l.square << (2 * l.level), l.reciprocal) >> (29 + l.level);
    root(l.square, (near % 0x1_0000_0000) as u32)
}

// The direction of a vector that is not zero, by its length.
pub fn direction(v: Vector, l: Length) -> Vector
    requires { Short v × (0 < square_of v) × Measures v l }
    ensures { result ≡ direction_of v }
{
    Vector {
        x: signed(v.x < 0, part(v.x.unsigned_abs(), l)),
        y: signed(v.y < 0, part(v.y.unsigned_abs(), l)),
    }
}

// The step of each grade from 1 to 8: the direction of (4^k - 1, 2^(k+1)).
static STEPS: [Vector; 8] = [
    Vector {
        x: 644245094,
        y: 858993459,
    },
    Vector {
        x: 947419256,
        y: 505290270,
    },
    Vector {
        x: 1040703614,
        y: 264305679,
    },
    Vector {
        x: 1065385856,
        y: 133695480,
    },
    Vector {
        x: 1071646718,
        y: 67043391,
    },
    Vector {
        x: 1073217663,
        y: 33546241,
    },
    Vector {
        x: 1073610759,
        y: 16776192,
    },
    Vector {
        x: 1073709056,
        y: 8388480,
    },
];

// The step of a grade.
pub fn step(grade: u32) -> Vector
    requires { (1 ≤ grade) × (grade ≤ 8) }
    ensures { result ≡ step_of grade }
{
    STEPS[grade as usize - 1]
}
