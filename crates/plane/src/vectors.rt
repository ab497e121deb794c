// Vectors between points, and their products.
ghost use Rattle.std.specs.Prelude.{◌≡◌, ◌^◌, ◌+ℤ◌, ◌*ℤ◌, ◌-ℤ◌};
ghost use Rattle.whole.specs.Sizes.{Size};
ghost use Rattle.plane.specs.Vectors.{Near, Short, from_to, cross_of, dot_of, square_of};

use crate::{Point, Vector};

// The vector from p to q.
pub fn from_to(p: Point, q: Point) -> Vector
    requires { Near p × Near q }
    ensures { result ≡ from_to p q }
{
    Vector {
        x: q.x - p.x,
        y: q.y - p.y,
    }
}

// a, by its lower half, which holds all of it: so a product of two such is one short multiplication.
fn low(a: i64) -> i64
    requires { Size (2 ^ 30) a }
    ensures { result ≡ a }
{
    (a as i32) as i64
}

// a * b.
pub fn times(a: i64, b: i64) -> i64
    requires { Size (2 ^ 30) a × Size (2 ^ 30) b }
    ensures { result ≡ a *ℤ b }
{
    low(a) * low(b)
}

// a * b - c * d.
pub fn difference(a: i64, b: i64, c: i64, d: i64) -> i64
    requires { Size (2 ^ 30) a × Size (2 ^ 30) b × Size (2 ^ 30) c × Size (2 ^ 30) d }
    ensures { result ≡ a *ℤ b -ℤ c *ℤ d }
{
    times(a, b) - times(c, d)
}

// a * b + c * d.
pub fn sum(a: i64, b: i64, c: i64, d: i64) -> i64
    requires { Size (2 ^ 30) a × Size (2 ^ 30) b × Size (2 ^ 30) c × Size (2 ^ 30) d }
    ensures { result ≡ a *ℤ b +ℤ c *ℤ d }
{
    times(a, b) + times(c, d)
}

// The cross product.
pub fn cross(u: Vector, v: Vector) -> i64
    requires { Short u × Short v }
    ensures { result ≡ cross_of u v }
{
    difference(u.x, v.y, u.y, v.x)
}

// The dot product.
pub fn dot(u: Vector, v: Vector) -> i64
    requires { Short u × Short v }
    ensures { result ≡ dot_of u v }
{
    sum(u.x, v.x, u.y, v.y)
}

// The length, squared.
pub fn square(v: Vector) -> u64
    requires { Short v }
    ensures { result ≡ square_of v }
{
    let m = v.x.unsigned_abs();
    let n = v.y.unsigned_abs();
    m * m + n * n
}
