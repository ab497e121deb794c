// Reads cases of the public calls, one a line, makes each call on lent memory, and prints what it answers and leaves there.
#![tactic(auto)]

mod case;
mod edit;
mod reply;

use case::Memory;
use cases::stream;
use lines::page;
use std::io;
use std::io::{BufWriter, Read, Write};

// The answer to each line of the text.
fn answers<W: Write>(text: &[u8], page: &mut W, memory: &mut Memory) -> io::Result<()> {
    for line in text.split_inclusive(|byte| *byte == b'\n') {
        case::print_line(line.strip_suffix(b"\n").unwrap_or(line), page, memory)?;
    }
    Ok(())
}

// The answer to each line of the input, through the buffer. Nothing says that an input ends, so the turns are counted.
fn replay<R: Read, W: Write>(
    input: &mut R,
    buffer: &mut [u8],
    page: &mut W,
    memory: &mut Memory,
) -> io::Result<()> {
    let mut kept = 0;
    for _ in 0..u64::MAX {
        let filled = stream::fill(input, buffer, kept)?;
        let end = stream::ready(buffer, filled);
        if end == 0 {
            return left_over(page, filled);
        }
        answers(&buffer[..end], page, memory)?;
        kept = stream::to_front(buffer, end, filled);
    }
    Ok(())
}

// What is said of bytes that no line holds: that a line is longer than the buffer.
fn left_over<W: Write>(page: &mut W, count: usize) -> io::Result<()> {
    if count == 0 {
        return Ok(());
    }
    writeln!(page, "a line is too long")
}

// Owns all the memory, and lends it.
fn main(rt: HostRuntime) -> io::Result<()> {
    let mut input = rt.reader();
    let mut buffer = vec![in rt.alloc(); 0u8; 262144]?;
    let mut page = BufWriter::new(rt.alloc(), io::writer(&rt))?;
    let mut memory = Memory {
        path: vec![in rt.alloc(); 0i32; 16384]?,
        room: vec![in rt.alloc(); 0i32; 131072]?,
        store: vec![in rt.alloc(); 0u8; 524288]?,
    };
    replay(&mut input, &mut buffer, &mut page, &mut memory)?;
    page::finish(&mut page)
}
