// Whether a table is damaged: its entries in use in order of offset, then in order of key.
ghost use Rattle.std.specs.Prelude.{◌≡◌};
ghost use Rattle.chunk_table.specs.Orders.{EntriesIn, strung_in, twice_in};
ghost use Rattle.chunk_table.specs.Tables.{front_in, damaged_in};

use crate::sorting::sort_on;
use crate::table::{Field, MOST_ENTRIES, Table};

// Whether each begins where the one before it ends, or later, and the last ends inside the chunk. An order is a slice of an array that is written
// anew for each word: what it holds is said where it is read.
fn strung(table: &Table, order: &[usize]) -> bool
    requires { EntriesIn table.now.entries order.now }
    ensures { result ≡ strung_in table.now.bytes.now order.now (front_in table.now.bytes.now) }
{
    let mut at = table.front();
    for &i in order {
        let offset = table.word(i, Field::Offset);
        if offset < at {
            return false;
        }
        at = offset + table.word(i, Field::Size);
    }
    at <= table.bytes.len()
}

// Whether two neighbours have one key.
fn twice(table: &Table, order: &[usize]) -> bool
    requires { EntriesIn table.now.entries order.now }
    ensures { result ≡ twice_in table.now.bytes.now order.now }
{
    let [first, rest @ ..] = order else {
        return false;
    };
    let mut last = *first;
    for &i in rest {
        if table.word(last, Field::Key) == table.word(i, Field::Key) {
            return true;
        }
        last = i;
    }
    false
}

// Whether the table is damaged.
pub fn damaged(c: &[u8]) -> bool
    ensures { result ≡ damaged_in c.now }
{
    let Some(table) = Table::read(c) else {
        return true;
    };
    let mut order = [0; MOST_ENTRIES];
    let used = sort_on(&table.column(Field::Offset), &mut order);
    if !strung(&table, &order[..used]) {
        return true;
    }
    let used = sort_on(&table.column(Field::Key), &mut order);
    twice(&table, &order[..used])
}
