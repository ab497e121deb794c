// The numbers of a case as points, vertices, sections, steps and choices, if they are what the functions ask for.
ghost use Rattle.std.specs.Prelude.{◌≡◌, true, false, IfSome};
ghost use Rattle.plane.specs.Vectors.{Near};
ghost use Rattle.plane.specs.Directions.{UnitLong};
ghost use Rattle.turning.specs.Bounds.{About};
ghost use Rattle.contacts.specs.Bounds.{Inside, Around};
ghost use Rattle.contacts.specs.Contacts.{broken_of};

use contacts::limits::allowed;
use contacts::math::kind;
use contacts::sections::section;
use contacts::{Kind, Section, Vertex};
use folds::Pen;
use lines::token::Number;
use plane::Point;
use plane::direction::step;
use plane::vectors::{from_to, square};
use turning::Sweep;

// The pen of a grade, which folds nothing, if there is such a grade.
pub fn pen_of(grade: Number) -> Option<Pen>
    ensures { IfSome result (λ pen. UnitLong pen.step) }
{
    let grade = grade.natural()?;
    if grade < 1 || 8 < grade {
        return None;
    }
    let step = step(grade as u32);
    Some(Pen { step, folds: false })
}

// The vertex of three numbers, if it is within the limits.
pub fn vertex(numbers: &[Number]) -> Option<Vertex>
    ensures { IfSome result Inside }
{
    let [x, y, radius] = numbers else {
        return None;
    };
    let v = Vertex {
        x: i64::try_from(*x).ok()?,
        y: i64::try_from(*y).ok()?,
        radius: i64::try_from(*radius).ok()?,
    };
    if allowed(v) { Some(v) } else { None }
}

// The section from one vertex to another, if both are within the limits and the step is not broken.
pub fn whole(a: Vertex, b: Vertex) -> Option<Section>
    ensures whole { IfSome result (λ s. Inside a × Inside b × (broken_of a b ≡ false)) }
    ensures around { IfSome result Around }
{
    if !allowed(a) {
        return None;
    }
    if !allowed(b) {
        return None;
    }
    match kind(a, b) {
        Kind::Broken => None,
        Kind::Drawn => Some(section(a, b)),
        Kind::Thin => Some(section(a, b)),
    }
}

// Whether a point is as near to the origin as an edge can end.
fn near(p: Point) -> bool
    ensures { result ≡ true → Near p }
{
    p.x.unsigned_abs() <= 0x2000_0000 && p.y.unsigned_abs() <= 0x2000_0000
}

// Whether a point is no farther from a centre than a radius within the limits, rounded.
pub fn about(c: Point, p: Point) -> bool
    requires { Near c }
    ensures { result ≡ true → About c p }
{
    near(p) && square(from_to(c, p)) < 0x100_0000_2000_0001
}

// The point of two numbers, if it is about a centre.
pub fn point(c: Point, numbers: &[Number]) -> Option<Point>
    requires { Near c }
    ensures { IfSome result (About c) }
{
    let [x, y] = numbers else {
        return None;
    };
    let p = Point {
        x: i64::try_from(*x).ok()?,
        y: i64::try_from(*y).ok()?,
    };
    if about(c, p) { Some(p) } else { None }
}

// How an arc between aligned rays turns.
pub fn choice_of(number: Number) -> Sweep {
    if number.size == 0 {
        Sweep::Minor
    } else {
        Sweep::Major
    }
}
