// explain and list: why an edge of a kept outline is there, and why each of them is; document 02, request 1, and of sides request 7.
#![tactic(auto)]

ghost use Rattle.std.specs.Prelude.{◌≡◌, ◌≤◌, length};
ghost use Rattle.paths.specs.Paths.{path_of, Within};
ghost use Rattle.reasons.specs.Reasons.{whys_of};
ghost use Rattle.explaining.specs.Explaining.{ExplainsIn, Explains, ListsIn, Lists};

use checking::check;
use checking::sizes::{OWN_NUMBERS, PATH_NUMBERS};
use reasons::Why;
use reasons::explain::explain_path;
use reasons::listing::list_path;
use replies::Refusal;

// An edge's own number, and why it is there.
#[derive(Clone, Copy)]
pub struct Explained {
    pub edge: usize,
    pub why: Why,
}

// The row of the edge, over a path of n vertices.
fn explain_in(
    path: &[i32],
    n: usize,
    grade: u32,
    edge: usize,
    one: &mut [usize],
) -> Result<Explained, Refusal>
    requires { (n ≡ length (path_of path.now)) × Within grade (path_of path.now) × (length one.old ≡ 5) }
    ensures { ExplainsIn (whys_of grade (path_of path.now)) edge result }
{
    match explain_path(path, n, grade, edge, one) {
        Some(why) => Ok(Explained { edge, why }),
        None => Err(Refusal::NoEdge(edge)),
    }
}

// Why an edge of a store is there; `path`, `own` and `one` are room to check it in and for its five numbers.
pub fn explain_with(
    store: &[u8],
    edge: usize,
    path: &mut [i32],
    own: &mut [i32],
    one: &mut [usize],
) -> Result<Explained, Refusal>
    requires { (PATH_NUMBERS ≤ length path.old) × (OWN_NUMBERS ≤ length own.old) × (length one.old ≡ 5) }
    ensures { Explains store.now edge result }
{
    let header = check(store, path, own)?;
    header.stroke_edition()?;
    let numbers = 3 * header.n;
    explain_in(&path[0..numbers], header.n, header.grade, edge, one)
}

// The row of the room, over a path of n vertices and m edges.
fn list_in(
    path: &[i32],
    n: usize,
    m: usize,
    grade: u32,
    out: &mut [usize],
) -> Result<usize, Refusal>
    requires vertices { (n ≡ length (path_of path.now)) × Within grade (path_of path.now) }
    requires edges { m ≡ length (whys_of grade (path_of path.now)) }
    ensures { ListsIn (whys_of grade (path_of path.now)) out.old result out.new }
{
    let numbers = 5 * m;
    if out.len() < numbers {
        return Err(Refusal::NoRoom(m));
    }
    list_path(path, n, grade, 0, out);
    Ok(m)
}

// Why each edge of a store is there, five numbers an edge, into lent numbers; `path` and `own` are room to check it in.
pub fn list_with(
    store: &[u8],
    out: &mut [usize],
    path: &mut [i32],
    own: &mut [i32],
) -> Result<usize, Refusal>
    requires { (PATH_NUMBERS ≤ length path.old) × (OWN_NUMBERS ≤ length own.old) }
    ensures { Lists store.now out.old result out.new }
{
    let header = check(store, path, own)?;
    header.stroke_edition()?;
    let numbers = 3 * header.n;
    list_in(&path[0..numbers], header.n, header.m, header.grade, out)
}

// Tells why an edge of a sound outline is there.
pub fn explain(store: &[u8], edge: usize) -> Result<Explained, Refusal>
    ensures { Explains store.now edge result }
{
    let mut path = [0i32; PATH_NUMBERS];
    let mut own = [0i32; OWN_NUMBERS];
    let mut one = [0usize; 5];
    explain_with(store, edge, &mut path, &mut own, &mut one)
}

// Lists why each edge of a sound outline is there into lent numbers, five an edge.
pub fn list(store: &[u8], out: &mut [usize]) -> Result<usize, Refusal>
    ensures { Lists store.now out.old result out.new }
{
    let mut path = [0i32; PATH_NUMBERS];
    let mut own = [0i32; OWN_NUMBERS];
    list_with(store, out, &mut path, &mut own)
}
