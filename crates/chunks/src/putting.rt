// What is left of adding once table and outline are known to be sound: stored unchanged, in the first empty entry and the lowest gap that fits.
ghost use Rattle.std.specs.Prelude.{◌≡◌, false, ◌+◌, ◌≤◌, ◌<◌, length};
ghost use Rattle.chunk_table.specs.Orders.{EntriesIn, Sorted};
ghost use Rattle.chunk_table.specs.Tables.{table_bytes, front_in, entry_count, damaged_in, empty_entry};
ghost use Rattle.chunks.specs.Answers.{PutsOutline};
ghost use Rattle.chunks.specs.Calls.{added_in};
ghost use Rattle.chunks.specs.Chunks.{end_from, end_in, gap_from, gap_in, with_outline};

use crate::bytes::copy_bytes;
use crate::compacting::squeeze;
use chunk_table::sorting::sort;
use chunk_table::table::{Field, MOST_ENTRIES, TABLE_ENTRY, TABLE_HEAD, Table};
use replies::Refusal;
use words::place_word;

// Where outlines would end that stood one behind another.
fn packed_end(table: &Table, order: &[usize]) -> usize
    requires entries { EntriesIn table.now.entries order.now }
    requires end { end_from table.now.bytes.now order.now (front_in table.now.bytes.now) ≤ 4294967295 }
    ensures { result ≡ end_from table.now.bytes.now order.now (front_in table.now.bytes.now) }
{
    let mut end = table.front();
    for &i in order {
        end += table.word(i, Field::Size);
    }
    end
}

// The lowest gap of some bytes.
fn lowest_gap(table: &Table, order: &[usize], bytes: usize) -> Option<usize>
    requires entries { EntriesIn table.now.entries order.now }
    requires few { bytes ≤ 4294967295 }
    ensures { result ≡ gap_from table.now.bytes.now bytes order.now (front_in table.now.bytes.now) }
{
    let mut at = table.front();
    for &i in order {
        let offset = table.word(i, Field::Offset);
        if at + bytes <= offset {
            return Some(at);
        }
        at = offset + table.word(i, Field::Size);
    }
    if at + bytes <= table.bytes.len() {
        Some(at)
    } else {
        None
    }
}

// The outline at a place, and its entry.
fn put_at(c: &mut [u8], i: usize, key: u32, at: usize, made: &[u8])
    requires { (table_bytes (i + 1) ≤ length c.old) × (at + length made.now ≤ length c.old) × (length c.old ≤ 4294967295) }
    ensures { c.new ≡ with_outline c.old i key at made.now }
{
    copy_bytes(c, at, made);
    let entry = TABLE_HEAD + TABLE_ENTRY * i;
    place_word(c, entry, key);
    place_word(c, entry + 4, at as u32);
    place_word(c, entry + 8, made.len() as u32);
}

// The outline in the lowest gap that fits, or compacted first.
fn put_in(c: &mut [u8], order: &[usize], i: usize, key: u32, made: &[u8])
    requires sorted { Sorted c.old order.now }
    requires empty { (i ≡ empty_entry c.old) × (i < entry_count c.old) }
    requires room { end_in c.old + length made.now ≤ length c.old }
    ensures { c.new ≡ added_in (gap_in c.old (length made.now)) c.old key made.now }
{
    match lowest_gap(&Table::of(c), order, made.len()) {
        Some(at) => put_at(c, i, key, at, made),
        None => {
            let end = squeeze(c, order);
            put_at(c, i, key, end, made);
        }
    }
}

// The outline in the chunk, or the refusal: 15, 17 or 5.
pub fn put_outline(c: &mut [u8], key: u32, made: &[u8]) -> Result<usize, Refusal>
    requires { damaged_in c.old ≡ false }
    ensures { PutsOutline c.old key made.now result c.new }
{
    let table = Table::of(c);
    if table.key_entry(key).is_some() {
        return Err(Refusal::KeyThere(key));
    }
    let Some(i) = table.empty_entry() else {
        return Err(Refusal::TableFull(table.entries));
    };
    let mut order = [0; MOST_ENTRIES];
    let used = sort(table.bytes, table.entries, &mut order);
    let end = packed_end(&table, &order[..used]);
    if c.len() - end < made.len() {
        return Err(Refusal::NoRoom(made.len()));
    }
    put_in(c, &order[..used], i, key, made);
    Ok(made.len())
}
