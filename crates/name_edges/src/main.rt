// Prints why each edge of the store on standard input is there, one line an edge: its number, the reason, the vertex whose body holds it and its place
// under that rule, and of a side whether its start and its end are exact or rounded; document 02, requests 1 and 7.
#![tactic(auto)]

mod print;

ghost use Rattle.std.specs.Prelude.{◌≤◌, length};

use explaining::list_with;
use lines::page;
use std::io;
use std::io::{BufWriter, Read, Write};

// The most bytes that a store may have.
const STORE: usize = 61440;

// The lines of a store, or why there are none.
fn print_store<W: Write>(
    store: &[u8],
    page: &mut W,
    list: &mut [usize],
    path: &mut [i32],
    own: &mut [i32],
) -> io::Result<()>
    requires path { 12288 ≤ length path.old }
    requires own { 8272 ≤ length own.old }
{
    if STORE < store.len() {
        return writeln!(page, "refused: the input is longer than 60 KiB");
    }
    match list_with(store, list, path, own) {
        Ok(count) => print::edges(page, list, count),
        Err(refusal) => print::refusal(page, refusal),
    }
}

// Owns the store, with a byte more than it may have, and all that it is listed in: 60 KiB hold at most 3,838 edges.
fn main(rt: HostRuntime) -> io::Result<()> {
    let mut store = Vec::new(rt.alloc());
    let mut page = BufWriter::new(rt.alloc(), io::writer(&rt))?;
    let mut list = vec![in rt.alloc(); 0usize; 19200]?;
    let mut path = vec![in rt.alloc(); 0i32; 12288]?;
    let mut own = vec![in rt.alloc(); 0i32; 8272]?;
    rt.reader().take(STORE as u64 + 1).read_to_end(&mut store)?;
    print_store(&store, &mut page, &mut list, &mut path, &mut own)?;
    page::finish(&mut page)
}
