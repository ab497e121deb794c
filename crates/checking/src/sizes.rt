// Own numbers to check a store with, and whether it is small: few do for it then.
ghost use Rattle.std.specs.Prelude.{◌≡◌};
ghost use Rattle.checking.specs.StoreRoom.{small_store};

use outline::layout::{KERB_KIND, LEAST};
use words::word_at;

// Room enough to check any store in: its vertices as numbers, its posts, and a step's own numbers.
pub const PATH_NUMBERS: usize = 3 * 4096;

pub const POSTS: usize = 4096;

pub const OWN_NUMBERS: usize = 8272;

// A grade from this on is fine, and vertices from that on are many.
const FINE_GRADE: u32 = 5;

const MANY_VERTICES: u32 = 65;

// Whether a store is too short for a header, or of a stroke of few vertices at a coarse grade.
pub fn is_small(s: &[u8]) -> bool
    ensures { result ≡ small_store s.now }
{
    s.len() < LEAST
        || (word_at(s, 1) < KERB_KIND
            && word_at(s, 2) < FINE_GRADE
            && word_at(s, 3) < MANY_VERTICES)
}
