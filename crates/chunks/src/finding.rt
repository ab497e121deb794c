// Find: where a key's outline stands.
ghost use Rattle.chunks.specs.Answers.{FindsKey};

use crate::part::Part;
use chunk_table::damage::damaged;
use chunk_table::table::{Field, Table};
use replies::Refusal;

pub fn find(c: &[u8], key: u32) -> Result<Part, Refusal>
    ensures { FindsKey c.now key result }
{
    if damaged(c) {
        return Err(Refusal::Damaged);
    }
    let table = Table::of(c);
    let Some(i) = table.key_entry(key) else {
        return Err(Refusal::KeyMissing(key));
    };
    Ok(Part {
        offset: table.word(i, Field::Offset),
        size: table.word(i, Field::Size),
    })
}
