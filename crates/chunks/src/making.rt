// Make: an empty table of zeros.
ghost use Rattle.chunks.specs.Answers.{MakesChunk};

use crate::bytes::clear_bytes;
use chunk_table::table::{MOST_BYTES, MOST_ENTRIES, TABLE_ENTRY, TABLE_HEAD};
use replies::Refusal;
use words::place_word;

pub fn make(c: &mut [u8], entries: u32) -> Result<usize, Refusal>
    ensures { MakesChunk c.old entries result c.new }
{
    let n = entries as usize;
    if MOST_BYTES < c.len() || MOST_ENTRIES < n {
        return Err(Refusal::Damaged);
    }
    let rest = TABLE_ENTRY * n;
    let end = TABLE_HEAD + rest;
    if c.len() < end {
        return Err(Refusal::Damaged);
    }
    place_word(c, 0, entries);
    clear_bytes(c, TABLE_HEAD, rest);
    Ok(end)
}
