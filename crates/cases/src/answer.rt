// An answer as text: reply, number, grade, the checksum and length of the lent memory, and short memory whole. What the page held stays at its front,
// also where writing fails; `write!` promises nothing of that, so each number is appended by itself.
ghost use Rattle.lines.specs.Pages.{Grows};

use crate::checksum;
use lines::page;
use std::io;
use std::io::Write;

// The most entries that are printed whole.
const SHORT: usize = 64;

// What a call answers, as numbers.
#[derive(Clone, Copy, Debug, PartialEq, Eq)]
pub struct Reply {
    pub reply: u64,
    pub number: u64,
    pub grade: u64,
}

// The five numbers of an answer.
fn print_head<W: Write>(page: &mut W, reply: Reply, sum: u64, length: usize) -> io::Result<()>
    ensures { Grows (W.contents page.old) (W.contents page.new) }
{
    for number in [reply.reply, reply.number, reply.grade, sum] {
        page::unsigned(page, number)?;
        page::space(page)?;
    }
    page::unsigned(page, length as u64)
}

// Each of the entries after a space.
fn print_each<W: Write, E: Copy + Into<i64>>(page: &mut W, memory: &[E]) -> io::Result<()>
    ensures { Grows (W.contents page.old) (W.contents page.new) }
{
    page::text(page, b" :")?;
    for entry in memory {
        page::space(page)?;
        page::signed(page, (*entry).into())?;
    }
    Ok(())
}

// The answer of a call that was lent numbers or bytes.
pub fn print_with<W: Write, E: Copy + Into<i64>>(
    page: &mut W,
    reply: Reply,
    memory: &[E],
) -> io::Result<()>
    ensures { Grows (W.contents page.old) (W.contents page.new) }
{
    print_head(page, reply, checksum::of(memory), memory.len())?;
    if memory.len() <= SHORT {
        print_each(page, memory)?;
    }
    Ok(())
}
