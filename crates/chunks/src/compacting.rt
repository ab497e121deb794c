// Compact: the outlines moved down in order of offset, the rest zeroed, the offsets written.
ghost use Rattle.std.specs.Prelude.{◌≡◌, ◌+◌, ◌≤◌, ◌<◌, ℕ, length, get_or};
ghost use Rattle.runs.specs.Runs.{over, put};
ghost use Rattle.chunk_table.specs.Orders.{Sorted};
ghost use Rattle.chunk_table.specs.Tables.{table_bytes, front_in};
ghost use Rattle.chunks.specs.Answers.{CompactsChunk};
ghost use Rattle.chunks.specs.Chunks.{outlines_in, end_from, end_in, renumbered, compacted_of};

use crate::bytes::{clear_bytes, slide_bytes};
use chunk_table::damage::damaged;
use chunk_table::sorting::sort;
use chunk_table::table::{Field, MOST_ENTRIES, Table, word_of};
use replies::Refusal;
use words::place_word;

// The outlines one behind another, behind the table, and where they end. The order is lent beside the chunk, which changes: no struct holds both.
fn pack(c: &mut [u8], order: &[usize], front: usize) -> usize
    requires sorted { Sorted c.old order.now }
    requires front { front ≡ front_in c.old }
    ensures { (result ≡ end_in c.old) × (c.new ≡ over put c.old (front_in c.old) (outlines_in c.old)) }
{
    let mut at = front;
    for &i in order {
        let offset = word_of(c, i, Field::Offset.place());
        let size = word_of(c, i, Field::Size.place());
        slide_bytes(c, offset, at, size);
        at += size;
    }
    at
}

// The offsets of outlines that stand one behind another.
fn renumber(c: &mut [u8], order: &[usize], front: usize)
    requires inside { (k : ℕ) → k < length order.now → table_bytes (get_or order.now k 0 + 1) ≤ length c.old }
    requires end { end_from c.old order.now front ≤ 4294967295 }
    ensures { c.new ≡ renumbered c.old order.now front c.old }
{
    let mut at = front;
    for &i in order {
        place_word(c, Field::Offset.place() + 12 * i, at as u32);
        at += word_of(c, i, Field::Size.place());
    }
}

// A chunk whose table is sound compacted, and where its one gap begins.
pub fn squeeze(c: &mut [u8], order: &[usize]) -> usize
    requires { Sorted c.old order.now }
    ensures { (result ≡ end_in c.old) × (c.new ≡ compacted_of c.old) }
{
    let front = Table::of(c).front();
    let end = pack(c, order, front);
    let rest = c.len() - end;
    clear_bytes(c, end, rest);
    renumber(c, order, front);
    end
}

pub fn compact(c: &mut [u8]) -> Result<usize, Refusal>
    ensures { CompactsChunk c.old result c.new }
{
    if damaged(c) {
        return Err(Refusal::Damaged);
    }
    let mut order = [0; MOST_ENTRIES];
    let entries = Table::of(c).entries;
    let used = sort(c, entries, &mut order);
    Ok(squeeze(c, &order[..used]))
}
