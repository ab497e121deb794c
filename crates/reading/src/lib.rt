// read: the path of a sound outline into lent numbers.
#![tactic(auto)]

ghost use Rattle.std.specs.Prelude.{◌≤◌, length};
ghost use Rattle.reading.specs.Reading.{Reads};
ghost use Rattle.checking.specs.StoreChecks.{Sound};
ghost use Rattle.checking.specs.StoreRoom.{store_path, store_own};

use checking::check;
use heading::Header;
use heading::shows::{show_path, width};
use outline::Form;
use replies::Refusal;

pub mod posts;

// What is read beside the path: how many vertices, which grade and which form.
#[derive(Clone, Copy)]
pub struct Read {
    pub vertices: usize,
    pub grade: u32,
    pub form: Form,
}

// The path of a store that passed every shared row.
fn read_path(s: &[u8], h: Header, out: &mut [i32]) -> Result<Read, Refusal>
    requires { Sound s.now h }
    ensures { Reads s.now out.old result out.new }
{
    let needed = width(h.form) * h.n;
    if out.len() < needed {
        return Err(Refusal::NoRoom(h.n));
    }
    show_path(s, h.form, h.n, out);
    Ok(Read {
        vertices: h.n,
        grade: h.grade,
        form: h.form,
    })
}

// The path of a store, three numbers a vertex, of a kerb two, into lent numbers; `path` and `own` are room to check it in.
pub fn read_with(
    store: &[u8],
    out: &mut [i32],
    path: &mut [i32],
    own: &mut [i32],
) -> Result<Read, Refusal>
    requires { (store_path store.now ≤ length path.old) × (store_own store.now ≤ length own.old) }
    ensures { Reads store.now out.old result out.new }
{
    let header = check(store, path, own)?;
    read_path(store, header, out)
}
