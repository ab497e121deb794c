// The posts of a store: its vertices' point numbers.
ghost use Rattle.std.specs.Prelude.{◌≡◌, ◌++◌, ◌+◌, ◌*◌, ◌≤◌, length, drop};
ghost use Rattle.outline.specs.Layout.{stroke_bytes, front_bytes};
ghost use Rattle.outline.specs.declared.Form.TheVariants.{Stroke};
ghost use Rattle.outline.specs.Stores.{posts_of, post_at};

use crate::Edition;
use words::word_at;

// The k-th vertex's post: 0 in the first edition.
pub fn post_at(s: &[u8], edition: Edition, k: usize) -> u32
    requires { 20 + (stroke_bytes edition * k + stroke_bytes edition) ≤ length s.now }
    ensures { result ≡ post_at edition s.now k }
{
    match edition {
        Edition::First => 0,
        Edition::Second => word_at(s, 8 + 5 * k),
    }
}

// The posts of the n vertices of a stroke's store.
pub fn show_posts(s: &[u8], edition: Edition, n: usize, out: &mut [u32])
    requires { (front_bytes (Stroke edition) n ≤ length s.now) × (n ≤ length out.old) }
    ensures { out.new ≡ posts_of (Stroke edition) n s.now ++ drop n out.old }
{
    for k in 0..n {
        out[k] = post_at(s, edition, k);
    }
}
