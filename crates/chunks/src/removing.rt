// Remove: entry and outline zeroed.
ghost use Rattle.std.specs.Prelude.{◌≡◌, true, false, ◌<◌};
ghost use Rattle.chunk_table.specs.Tables.{entry_count, size_in, used_at, damaged_in};
ghost use Rattle.chunks.specs.Answers.{RemovesKey};
ghost use Rattle.chunks.specs.Chunks.{without};

use crate::bytes::clear_bytes;
use chunk_table::damage::damaged;
use chunk_table::table::{Field, TABLE_ENTRY, TABLE_HEAD, Table, word_of};
use replies::Refusal;

// Entry i, which is in use, and its outline zeroed; the outline's bytes.
fn wipe(c: &mut [u8], i: usize) -> usize
    requires sound { damaged_in c.old ≡ false }
    requires used { (i < entry_count c.old) × (used_at c.old i ≡ true) }
    ensures { (result ≡ size_in c.old i) × (c.new ≡ without c.old i) }
{
    let offset = word_of(c, i, Field::Offset.place());
    let size = word_of(c, i, Field::Size.place());
    clear_bytes(c, offset, size);
    clear_bytes(c, TABLE_HEAD + TABLE_ENTRY * i, TABLE_ENTRY);
    size
}

pub fn remove(c: &mut [u8], key: u32) -> Result<usize, Refusal>
    ensures { RemovesKey c.old key result c.new }
{
    if damaged(c) {
        return Err(Refusal::Damaged);
    }
    let Some(i) = Table::of(c).key_entry(key) else {
        return Err(Refusal::KeyMissing(key));
    };
    Ok(wipe(c, i))
}
