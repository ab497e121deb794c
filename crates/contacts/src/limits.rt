// The limits of a vertex.
ghost use Rattle.std.specs.Prelude.{◌≡◌};
ghost use Rattle.contacts.specs.Limits.{allowed_of};

use crate::Vertex;

// How far a coordinate may be from 0, and how large a radius may be.
const MOST: i64 = 268435456;

// Whether a vertex is within the limits.
pub fn allowed(v: Vertex) -> bool
    ensures { result ≡ allowed_of v }
{
    (-MOST..=MOST).contains(&v.x) && (-MOST..=MOST).contains(&v.y) && (0..=MOST).contains(&v.radius)
}
