// Reads cases of arcs, circles, contacts, coverings and joins, one a line, and prints the answer to each.
#![tactic(auto)]

mod answer;
mod case;
mod numbers;
mod print;

use lines::page;
use std::io;
use std::io::{BufWriter, Read, Write};

// As much of the input as is read.
const TEXT: u64 = 65536;

// Room for 1,024 edges; the longest answer of the list has 806.
const ROOM: usize = 4096;

// The answer to each line of the text.
fn answers<W: Write>(text: &[u8], page: &mut W, out: &mut [i32]) -> io::Result<()> {
    for line in text.split_inclusive(|byte| *byte == b'\n') {
        case::print_line(page, line.strip_suffix(b"\n").unwrap_or(line), out)?;
    }
    Ok(())
}

// Owns the text, the page and the room for edges, and lends them.
fn main(rt: HostRuntime) -> io::Result<()> {
    let mut text = Vec::new(rt.alloc());
    let mut page = BufWriter::new(rt.alloc(), io::writer(&rt))?;
    let mut out = vec![in rt.alloc(); 0i32; ROOM]?;
    rt.reader().take(TEXT).read_to_end(&mut text)?;
    answers(&text, &mut page, &mut out)?;
    page::finish(&mut page)
}
