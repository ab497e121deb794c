// salvage: a sound outline from the header and the vertices of a store, and notes of what differed; document 02, request 14.
#![tactic(auto)]

ghost use Rattle.std.specs.Prelude.{◌≤◌, length};
ghost use Rattle.salvaging.specs.Salvaging.{Salvages};

use crate::fronts::front_rows;
use crate::making::salvage_front;
use replies::Refusal;

pub mod fronts;
pub mod making;

// What salvage made: how many bytes the outline has, and how many notes there are.
#[derive(Clone, Copy, PartialEq, Eq, Debug)]
pub struct Salvaged {
    pub bytes: usize,
    pub notes: usize,
}

// salvage with numbers of the caller's: for the store's path, for its posts, for a step's edges and for what differs. Each may be longer than is
// asked, and lies where the caller has it: one struct of four arrays would ask for just so many, side by side.
pub fn salvage_with(
    store: &[u8],
    out: &mut [u8],
    list: &mut [u32],
    path: &mut [i32],
    posts: &mut [u32],
    own: &mut [i32],
    differing: &mut [u32],
) -> Result<Salvaged, Refusal>
    requires { (12288 ≤ length path.old) × (4096 ≤ length posts.old) × (36908 ≤ length own.old) × (4098 ≤ length differing.old) }
    ensures { Salvages store.now out.old list.old result out.new list.new }
{
    let front = front_rows(store)?;
    salvage_front(&front, out, list, path, posts, own, differing)
}

// Salvages a stroke's store: a sound outline into lent bytes, and notes of what differed into lent numbers, two a note.
pub fn salvage(store: &[u8], out: &mut [u8], list: &mut [u32]) -> Result<Salvaged, Refusal>
    ensures { Salvages store.now out.old list.old result out.new list.new }
{
    let mut path = [0i32; 12288];
    let mut posts = [0u32; 4096];
    let mut own = [0i32; 36908];
    let mut differing = [0u32; 4098];
    salvage_with(
        store,
        out,
        list,
        &mut path,
        &mut posts,
        &mut own,
        &mut differing,
    )
}
