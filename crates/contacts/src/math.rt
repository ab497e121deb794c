// What a step's contacts are made of, and what kind of step it is; follows src/mesh/int/variable_stroke/math.rs.
ghost use Rattle.std.specs.Prelude.{◌≡◌, ◌*◌, ◌^◌, ◌<◌, ◌≤◌, nat_abs, pos, neg_ℤ, ◌+ℤ◌, ◌-ℤ◌, ◌*ℤ◌};
ghost use Rattle.whole.specs.Sizes.{Size};
ghost use Rattle.number.specs.MulDiv.{mul_div_of, exact_of};
ghost use Rattle.plane.specs.Vectors.{square_of};
ghost use Rattle.contacts.specs.Bounds.{Inside, Line};
ghost use Rattle.contacts.specs.Contacts.{centre_of, line_of, delta_of, shift_of, tangent_of, numerator_of, contact_of, contact_exact, larger_of, kind_of};

use crate::{Exactness, Kind, Vertex};
use number::division::mul_div;
use number::guess::near_root;
use number::root::root;
use plane::vectors::{from_to, square};
use plane::{Point, Vector};
use turning::Edge;

// The point of a vertex.
pub fn centre(v: Vertex) -> Point
    ensures { result ≡ centre_of v }
{
    Point { x: v.x, y: v.y }
}

// The way from a to b.
pub fn line(a: Vertex, b: Vertex) -> Vector
    requires { Inside a × Inside b }
    ensures { result ≡ line_of a b }
{
    from_to(centre(a), centre(b))
}

// By how much a's radius is above b's.
pub fn delta(a: Vertex, b: Vertex) -> i64
    requires { Inside a × Inside b }
    ensures { result ≡ delta_of a b }
{
    a.radius - b.radius
}

// The larger radius.
pub fn larger(a: Vertex, b: Vertex) -> i64
    ensures { result ≡ larger_of a b }
{
    a.radius.max(b.radius)
}

// What the step from a to b is.
pub fn kind(a: Vertex, b: Vertex) -> Kind
    requires { Inside a × Inside b }
    ensures { result ≡ kind_of a b }
{
    let d = delta(a, b).unsigned_abs();
    if square(line(a, b)) <= d * d {
        Kind::Broken
    } else if 2 <= larger(a, b) {
        Kind::Drawn
    } else {
        Kind::Thin
    }
}

// Half the leading zeros of sq but one: how many binary places its root is taken to.
pub fn shift(sq: u64) -> u32
    requires { (0 < sq) × (sq ≤ 2 ^ 59) }
    ensures { result ≡ shift_of sq }
{
    (sq.leading_zeros() - 1) / 2
}

// The root of sq less delta's square, to k binary places.
fn tangent(sq: u64, delta: i64, k: u32) -> u32
    requires { (nat_abs delta * nat_abs delta < sq) × (sq ≤ 2 ^ 59) × (k ≡ shift_of sq) }
    ensures { result ≡ tangent_of sq delta }
{
    let d = delta.unsigned_abs();
    let n = (sq - d * d) << (2 * k);
    root(n, near_root(n))
}

// a * 2^k.
fn scaled(a: i64, k: u32) -> i64
    requires { (nat_abs a * 2 ^ k ≤ 2 ^ 32) × (k ≤ 31) }
    ensures { result ≡ a *ℤ pos (2 ^ k) }
{
    a * (1 << k)
}

// The numerator of the contacts on one side, with that side's tangent.
fn numerator(v: Vector, delta: i64, k: u32, t: i64) -> Vector
    requires { Line v × (nat_abs delta * 2 ^ k ≤ 2 ^ 32) × (k ≤ 31) × Size (2 ^ 32) t }
    ensures { result ≡ numerator_of v delta k t }
{
    let e = scaled(delta, k);
    Vector {
        x: e * v.x - t * v.y,
        y: e * v.y + t * v.x,
    }
}

// Offsets of contacts from their centres, at a radius of 1: a numerator for the left and one for the right, over one divisor.
#[derive(Clone, Copy)]
pub struct Offsets {
    pub left: Vector,
    pub right: Vector,
    pub divisor: u64,
}

// The offsets of a step along v, over which the radius falls by delta.
pub fn tangent_offsets(v: Vector, delta: i64) -> Offsets
    requires { Line v × (nat_abs delta * nat_abs delta < square_of v) }
    ensures left { result.left ≡ numerator_of v delta (shift_of (square_of v)) (pos (tangent_of (square_of v) delta)) }
    ensures right { result.right ≡ numerator_of v delta (shift_of (square_of v)) (neg_ℤ (pos (tangent_of (square_of v) delta))) }
    ensures divisor { result.divisor ≡ square_of v * 2 ^ shift_of (square_of v) }
{
    let sq = square(v);
    let k = shift(sq);
    let t = tangent(sq, delta, k) as i64;
    Offsets {
        left: numerator(v, delta, k, t),
        right: numerator(v, delta, k, -t),
        divisor: sq << k,
    }
}

// A coordinate of a contact, and whether the division left nothing over.
#[derive(Clone, Copy)]
pub struct Coordinate {
    pub to: i64,
    pub exact: bool,
}

// x + radius * n / divisor.
fn moved(x: i64, radius: i64, n: i64, divisor: u64) -> Coordinate
    requires { Size (2 ^ 28) x × Size (2 ^ 28) radius × (nat_abs n ≤ divisor) × (0 < divisor) × (divisor < 2 ^ 62) }
    ensures { (result.to ≡ x +ℤ mul_div_of radius n divisor) × (result.exact ≡ exact_of radius n divisor) }
{
    let q = mul_div(radius, n, divisor as i64);
    Coordinate {
        to: x + q.value,
        exact: q.exact,
    }
}

// A contact, and whether it is exact: neither division left anything over.
#[derive(Clone, Copy)]
pub struct Touch {
    pub point: Point,
    pub exact: bool,
}

// The contact of v for the numerator n.
fn contact(divisor: u64, n: Vector, v: Vertex) -> Touch
    requires { Inside v × (square_of n ≤ divisor * divisor) × (0 < divisor) × (divisor < 2 ^ 62) }
    ensures { (result.point ≡ contact_of divisor n v) × (result.exact ≡ contact_exact divisor n v) }
{
    let x = moved(v.x, v.radius, n.x, divisor);
    let y = moved(v.y, v.radius, n.y, divisor);
    Touch {
        point: Point { x: x.to, y: y.to },
        exact: x.exact && y.exact,
    }
}

// A side of a section, and which of its ends are exact.
#[derive(Clone, Copy)]
pub struct Side {
    pub edge: Edge,
    pub exact: Exactness,
}

// The contacts of a and of b for the numerator n.
pub fn contacts(divisor: u64, n: Vector, a: Vertex, b: Vertex) -> Side
    requires { Inside a × Inside b × (square_of n ≤ divisor * divisor) × (0 < divisor) × (divisor < 2 ^ 62) }
    ensures edge { (result.edge.a ≡ contact_of divisor n a) × (result.edge.b ≡ contact_of divisor n b) }
    ensures exact { (result.exact.a ≡ contact_exact divisor n a) × (result.exact.b ≡ contact_exact divisor n b) }
{
    let from = contact(divisor, n, a);
    let to = contact(divisor, n, b);
    Side {
        edge: Edge {
            a: from.point,
            b: to.point,
        },
        exact: Exactness {
            a: from.exact,
            b: to.exact,
        },
    }
}
