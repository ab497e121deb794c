// The rows that read and replace share: is this store an outline, and is it sound?
#![tactic(auto)]

ghost use Rattle.std.specs.Prelude.{◌≤◌, length};
ghost use Rattle.checking.specs.StoreChecks.{StoreSays};
ghost use Rattle.checking.specs.StoreRoom.{store_path, store_own};

use heading::Header;
use heading::heads::head_rows;
use replies::Refusal;

pub mod rests;
pub mod sizes;

// Every row that the calls on a store share. The vertices of a store that holds are left at the front of `path`.
// How many own numbers a store asks for is by the store, so no struct of the two rooms alone could say that they are enough.
pub fn check(s: &[u8], path: &mut [i32], own: &mut [i32]) -> Result<Header, Refusal>
    requires { (store_path s.now ≤ length path.old) × (store_own s.now ≤ length own.old) }
    ensures { StoreSays s.now path.new result }
{
    let header = head_rows(s)?;
    rests::check_rest(s, header, path, own)?;
    Ok(header)
}
