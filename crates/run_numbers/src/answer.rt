// The answer to each kind of case, if its numbers lie within what the function takes.
ghost use Rattle.std.specs.Prelude.{◌≡◌, ◌^◌, ◌≤◌, nat_abs, IfSome};
ghost use Rattle.plane.specs.Directions.{UnitLong};

use lines::token::Number;
use number::sign::signed;
use plane::Vector;
use std::fmt;

// What a case comes to: a number, two, or the two limbs of one.
#[derive(Clone, Copy, Debug, PartialEq, Eq)]
pub enum Answer {
    One(i64),
    Two(i64, i64),
    Limbs(u64, u64),
}

impl fmt::Display for Answer {
    fn fmt<W: fmt::Write>(&self, f: &mut fmt::Formatter<W>) -> fmt::Result {
        match self {
            Answer::One(x) => write!(f, "{x}"),
            Answer::Two(x, y) => write!(f, "{x} {y}"),
            Answer::Limbs(high, low) => write!(f, "{high} {low}"),
        }
    }
}

// The integer root.
pub fn root(n: Number) -> Option<Answer> {
    let n = n.natural()?;
    let root = number::root::root(n, number::guess::near_root(n));
    Some(Answer::One(root as i64))
}

// The two limbs of a product.
pub fn product(a: Number, b: Number) -> Option<Answer> {
    let product = number::wide::product(a.natural()?, b.natural()?);
    let limb = 0x1_0000_0000_0000_0000;
    Some(Answer::Limbs((product / limb) as u64, (product % limb) as u64))
}

// A product over a divisor, and whether the division left nothing over, as 1 or 0.
pub fn quotient(a: Number, b: Number, d: Number) -> Option<Answer> {
    let divisor = d.natural()?;
    if divisor == 0 || 0x4000_0000_0000_0000 <= divisor {
        return None;
    }
    if 0x1000_0000 < a.size || 4 * divisor < b.size || 0x8000_0000_0000_0000 <= b.size {
        return None;
    }
    let quotient = number::division::mul_div(
        signed(a.minus, a.size),
        signed(b.minus, b.size),
        signed(false, divisor),
    );
    Some(Answer::Two(quotient.value, i64::from(quotient.exact)))
}

// The vector of these coordinates.
fn vector(x: Number, y: Number) -> Vector
    requires { (x.size ≤ 2 ^ 30) × (y.size ≤ 2 ^ 30) }
    ensures { (nat_abs result.x ≡ x.size) × (nat_abs result.y ≡ y.size) }
{
    Vector {
        x: signed(x.minus, x.size),
        y: signed(y.minus, y.size),
    }
}

// The direction of a vector.
pub fn direction(x: Number, y: Number) -> Option<Answer> {
    if 0x4000_0000 < x.size || 0x4000_0000 < y.size || x.size + y.size == 0 {
        return None;
    }
    let v = vector(x, y);
    let way = plane::direction::direction(v, plane::direction::measured(v));
    Some(Answer::Two(way.x, way.y))
}

// The step of a grade.
pub fn step(grade: Number) -> Option<Answer> {
    let grade = grade.natural()?;
    if grade < 1 || 8 < grade {
        return None;
    }
    let way = plane::direction::step(grade as u32);
    Some(Answer::Two(way.x, way.y))
}

// The vector of these coordinates, if it is no longer than 2^30.
fn unit(x: Number, y: Number) -> Option<Vector>
    ensures { IfSome result UnitLong }
{
    if 0x4000_0000 < x.size || 0x4000_0000 < y.size {
        return None;
    }
    if 0x1000_0000_0000_0000 < x.size * x.size + y.size * y.size {
        return None;
    }
    Some(vector(x, y))
}

// A direction turned by a step.
pub fn rotation(c: Number, s: Number, x: Number, y: Number) -> Option<Answer> {
    let way = plane::rotation::rotated(unit(c, s)?, unit(x, y)?);
    Some(Answer::Two(way.x, way.y))
}

// A direction's component scaled by a radius.
pub fn scaling(d: Number, radius: Number) -> Option<Answer> {
    let radius = radius.natural()?;
    if 0x4000_0000 < d.size || 0x1000_0000 < radius {
        return None;
    }
    let component = signed(d.minus, d.size);
    Some(Answer::One(plane::rotation::scaled(component, radius)))
}

// The shift that a squared length asks for.
pub fn shift(square: Number) -> Option<Answer> {
    let square = square.natural()?;
    if square == 0 || 0x800_0000_0000_0000 < square {
        return None;
    }
    Some(Answer::One(contacts::math::shift(square) as i64))
}
