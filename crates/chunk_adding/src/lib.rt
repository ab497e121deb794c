// Add: an outline that is checked as reading checks it, stored in a chunk under a key.
#![tactic(auto)]

ghost use Rattle.std.specs.Prelude.{◌≡◌, false, ◌≤◌, length};
ghost use Rattle.checking.specs.StoreChecks.{Sound};
ghost use Rattle.checking.specs.StoreRoom.{store_path, store_own};
ghost use Rattle.chunk_table.specs.Tables.{damaged_in};
ghost use Rattle.chunk_adding.specs.Adding.{AddsOutline};

use checking::check;
use checking::sizes::is_small;
use chunk_table::damage::damaged;
use chunks::putting::put_outline;
use heading::Header;
use replies::Refusal;

// A store that passed every shared row, of which the outline's own bytes go into a chunk whose table is sound.
fn add_outline(chunk: &mut [u8], key: u32, store: &[u8], h: Header) -> Result<usize, Refusal>
    requires table { damaged_in chunk.old ≡ false }
    requires outline { Sound store.now h }
    ensures { AddsOutline chunk.old key store.now result chunk.new }
{
    let end = h.form.whole_length(h.n, h.m);
    put_outline(chunk, key, &store[..end])
}

// The outline of a store into a chunk; `path` and `own` are room to check it in.
pub fn add_with(
    chunk: &mut [u8],
    key: u32,
    store: &[u8],
    path: &mut [i32],
    own: &mut [i32],
) -> Result<usize, Refusal>
    requires { (store_path store.now ≤ length path.old) × (store_own store.now ≤ length own.old) }
    ensures { AddsOutline chunk.old key store.now result chunk.new }
{
    if damaged(chunk) {
        return Err(Refusal::Damaged);
    }
    let header = check(store, path, own)?;
    add_outline(chunk, key, store, header)
}

// Adds an outline to a chunk under a key.
pub fn add(chunk: &mut [u8], key: u32, store: &[u8]) -> Result<usize, Refusal>
    ensures { AddsOutline chunk.old key store.now result chunk.new }
{
    if is_small(store) {
        let mut path = [0i32; 192];
        let mut own = [0i32; 592];
        return add_with(chunk, key, store, &mut path, &mut own);
    }
    let mut path = [0i32; 12288];
    let mut own = [0i32; 8272];
    add_with(chunk, key, store, &mut path, &mut own)
}
