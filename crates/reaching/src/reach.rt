// reach: how far another vertex in the path of a kept outline can reach.
ghost use Rattle.std.specs.Prelude.{◌≡◌, [], ◌∷◌, ◌≤◌, length};
ghost use Rattle.contacts.specs.Limits.{first_outside};
ghost use Rattle.paths.specs.Paths.{path_of};
ghost use Rattle.replies.specs.Replies.{first_row, index_row};
ghost use Rattle.replies.specs.Refusals.{reply_of};
ghost use Rattle.reaching.specs.Replies.{reached_of, Reaches};
ghost use Rattle.checking.specs.StoreRoom.{store_path, store_own};

use crate::walk::reached;
use checking::check;
use replies::Refusal;

// The row of the index, and the reach, over a path.
fn reach_in(path: &[i32], index: usize) -> Result<usize, Refusal>
    requires { first_outside (path_of path.now) ≡ length (path_of path.now) }
    ensures { reply_of result ≡ first_row (index_row (length (path_of path.now)) index ∷ []) (0, reached_of (path_of path.now) index) }
{
    let n = path.len() / 3;
    if n <= index {
        return Err(Refusal::NoVertex(index));
    }
    Ok(reached(path, index))
}

// How far another vertex at an index can reach, or the number of vertices where none is reached; `path` and `own` are room to check the store in.
pub fn reach_with(
    store: &[u8],
    index: usize,
    path: &mut [i32],
    own: &mut [i32],
) -> Result<usize, Refusal>
    requires { (store_path store.now ≤ length path.old) × (store_own store.now ≤ length own.old) }
    ensures { Reaches store.now index result }
{
    let header = check(store, path, own)?;
    header.stroke_edition()?;
    let numbers = 3 * header.n;
    reach_in(&path[0..numbers], index)
}
