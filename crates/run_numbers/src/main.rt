// Reads cases of roots, products, quotients, directions, steps, rotations, scalings and shifts, one a line, and prints the answer to each.
#![tactic(auto)]

mod answer;
mod case;

use lines::page;
use std::io;
use std::io::{BufWriter, Read, Write};

// As much of the input as is read.
const TEXT: u64 = 262144;

// The answer to each line of the text.
fn answers<W: Write>(text: &[u8], page: &mut W) -> io::Result<()> {
    for line in text.split_inclusive(|byte| *byte == b'\n') {
        case::print_line(page, line.strip_suffix(b"\n").unwrap_or(line))?;
    }
    Ok(())
}

// Owns the text and the page, and lends them.
fn main(rt: HostRuntime) -> io::Result<()> {
    let mut text = Vec::new(rt.alloc());
    let mut page = BufWriter::new(rt.alloc(), io::writer(&rt))?;
    rt.reader().take(TEXT).read_to_end(&mut text)?;
    answers(&text, &mut page)?;
    page::finish(&mut page)
}
