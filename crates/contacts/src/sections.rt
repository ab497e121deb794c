// Sections, and whether a section's quadrilateral covers a circle; follows src/mesh/int/variable_stroke/section.rs.
ghost use Rattle.std.specs.Prelude.{◌≡◌, false, ◌^◌};
ghost use Rattle.whole.specs.Sizes.{Size};
ghost use Rattle.plane.specs.Vectors.{Near};
ghost use Rattle.contacts.specs.Bounds.{Inside, Around, AroundLast};
ghost use Rattle.contacts.specs.Contacts.{trend_of, broken_of, section_of};
ghost use Rattle.contacts.specs.Covering.{turn_of, inward_of, inside_of, covers_of, covered_of};

use crate::math::{centre, contacts, delta, larger, line, tangent_offsets};
use crate::{ExactSides, Section, Trend, Vertex};
use number::root::times_root_up_at_most;
use plane::Point;
use plane::vectors::{cross, from_to, square};
use std::cmp::Ordering;

// Whether the radius falls, stays or grows from a to b.
pub fn trend(a: Vertex, b: Vertex) -> Trend
    ensures { result ≡ trend_of a b }
{
    match a.radius.cmp(&b.radius) {
        Ordering::Greater => Trend::Decreasing,
        Ordering::Equal => Trend::Constant,
        Ordering::Less => Trend::Increasing,
    }
}

// The section of a step from a to b that is not broken.
pub fn section(a: Vertex, b: Vertex) -> Section
    requires { Inside a × Inside b × (broken_of a b ≡ false) }
    ensures { result ≡ section_of a b }
{
    let offsets = tangent_offsets(line(a, b), delta(a, b));
    let left = contacts(offsets.divisor, offsets.left, a, b);
    let right = contacts(offsets.divisor, offsets.right, a, b);
    Section {
        a,
        b,
        left: left.edge,
        right: right.edge,
        trend: trend(a, b),
        exact: ExactSides {
            left: left.exact,
            right: right.exact,
        },
    }
}

// The turn of a section's quadrilateral at its second corner.
fn turn(s: Section) -> i64
    requires { Around s }
    ensures { result ≡ turn_of s }
{
    cross(from_to(s.left.a, s.left.b), from_to(s.left.b, s.right.b))
}

// The cross product z, counted inwards.
fn inward(turn: i64, z: i64) -> i64
    requires { Size (2 ^ 61) z }
    ensures { result ≡ inward_of turn z }
{
    if turn < 0 { -z } else { z }
}

// Whether the circle of b lies on the inner side of the line from p to q: the inward cross product is at least the radius times the length, rounded up.
pub fn inside(turn: i64, b: Vertex, p: Point, q: Point) -> bool
    requires { Inside b × Near p × Near q }
    ensures { result ≡ inside_of turn b p q }
{
    let v = from_to(p, q);
    let z = inward(turn, cross(v, from_to(p, centre(b))));
    z >= 0 && times_root_up_at_most(b.radius as u64, square(v), z as u64)
}

// Whether a section's quadrilateral covers the circle of b.
pub fn covers_circle(s: Section, b: Vertex) -> bool
    requires { Around s × Inside b }
    ensures { result ≡ covers_of s b }
{
    let t = turn(s);
    // the end's side first: a path that goes on is outside that one
    t != 0
        && inside(t, b, s.left.b, s.right.b)
        && inside(t, b, s.left.a, s.left.b)
        && inside(t, b, s.right.b, s.right.a)
        && inside(t, b, s.right.a, s.left.a)
}

// Whether the section of the previous step, if it was drawn, covers the circle of b, and one of its radii exceeds b's.
pub fn covered(last: Option<Section>, b: Vertex) -> bool
    requires { AroundLast last × Inside b }
    ensures { result ≡ covered_of last b }
{
    match last {
        None => false,
        Some(s) => b.radius < larger(s.a, s.b) && covers_circle(s, b),
    }
}
