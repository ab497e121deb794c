// numbers: the posts of a sound outline of a stroke, its vertices' point numbers, into lent numbers.
ghost use Rattle.std.specs.Prelude.{◌≤◌, length};
ghost use Rattle.checking.specs.StoreRoom.{store_path, store_own};
ghost use Rattle.reading.specs.PostsReading.{ReadsPosts};

use checking::check;
use outline::posts::show_posts;
use replies::Refusal;

// The posts of a stroke's store into lent numbers, and how many; `path` and `own` are room to check it in.
pub fn posts_with(
    store: &[u8],
    out: &mut [u32],
    path: &mut [i32],
    own: &mut [i32],
) -> Result<usize, Refusal>
    requires { (store_path store.now ≤ length path.old) × (store_own store.now ≤ length own.old) }
    ensures { ReadsPosts store.now out.old result out.new }
{
    let header = check(store, path, own)?;
    let edition = header.stroke_edition()?;
    let n = header.n;
    if out.len() < n {
        return Err(Refusal::NoRoom(n));
    }
    show_posts(store, edition, n, out);
    Ok(n)
}
