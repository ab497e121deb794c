// A product over a divisor, to the nearest whole number, as `mul_div` of src/mesh/int/math.rs.
ghost use Rattle.std.specs.Prelude.{◌≡◌, ◌+◌, ◌*◌, ◌^◌, ◌<◌, ◌≤◌, pos, ◌<ℤ◌, unsigned_abs};
ghost use Rattle.number.specs.MulDiv.{nearest_of, mul_div_of, none_left, exact_of};
ghost use Rattle.number.specs.Division.{Spared};

use crate::sign::signed;

// How many low bits of den to spare, so that at most 34 are left.
fn spare(den: u64) -> u32
    requires { 0 < den }
    ensures { Spared den result }
{
    30u32.saturating_sub(den.leading_zeros())
}

// The number top * 2^t + low, for some t.
#[derive(Clone, Copy)]
pub struct Parts {
    pub top: u64,
    pub low: u64,
}

// x without its t lowest bits, and these.
fn split(x: u64, t: u32) -> Parts
    requires { t ≤ 34 }
    ensures { (x ≡ result.top * 2 ^ t + result.low) × (result.low < 2 ^ t) }
{
    let top = x >> t;
    Parts {
        top,
        low: x - (top << t),
    }
}

// x * 2^t.
fn lift(x: u64, t: u32) -> u64
    requires { (t ≤ 34) × (x * 2 ^ t < 2 ^ 64) }
    ensures { result ≡ x * 2 ^ t }
{
    x << t
}

// A quotient to the nearest, and whether the division left nothing over.
#[derive(Clone, Copy)]
pub struct Rounded {
    pub quotient: u64,
    pub exact: bool,
}

// The nearest whole number to r * num / den, the larger of two. The product's limbs are r * top, of weight 2^t, and r * low: one division of the
// leading parts gives the quotient or one less, and what was spared of num and den decides, and tells whether anything is left over.
pub fn nearest(r: u64, num: u64, den: u64) -> Rounded
    requires { (r ≤ 2 ^ 28) × (num ≤ 4 * den) × (0 < den) × (den < 2 ^ 62) }
    ensures { (result.quotient ≡ nearest_of (r * num) den) × (result.quotient < 2 ^ 32) × (result.exact ≡ none_left (r * num) den) }
{
    let t = spare(den);
    let n = split(num, t);
    let d = split(den, t);
    let p = r * n.top;
    let q = p / d.top;
    let a = lift(p % d.top, t) + r * n.low;
    let b = q * d.low;
    if den + 2 * b <= 2 * a {
        Rounded {
            quotient: q + 1,
            exact: a == den + b,
        }
    } else {
        Rounded {
            quotient: q,
            exact: a == b,
        }
    }
}

// A rounded quotient with its sign, and whether the division left nothing over.
#[derive(Clone, Copy)]
pub struct Quotient {
    pub value: i64,
    pub exact: bool,
}

// a * b / d to the nearest whole number, halves away from zero, for a within the limits of a radius and b at most four times d.
pub fn mul_div(a: i64, b: i64, d: i64) -> Quotient
    requires { (unsigned_abs a ≤ 2 ^ 28) × (unsigned_abs b ≤ 4 * unsigned_abs d) × (pos 0 <ℤ d) × (unsigned_abs d < 2 ^ 62) }
    ensures { (result.value ≡ mul_div_of a b (unsigned_abs d)) × (result.exact ≡ exact_of a b (unsigned_abs d)) }
{
    let q = nearest(a.unsigned_abs(), b.unsigned_abs(), d as u64);
    Quotient {
        value: signed((a < 0) != (b < 0), q.quotient),
        exact: q.exact,
    }
}
