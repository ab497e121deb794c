// Lines of a listing.
use replies::{Code, Refusal};
use std::io;
use std::io::Write;

// The words of the reasons, in the order of their numbers in a list. The first two are those of sides.
const REASONS: [&str; 8] = [
    "left-side",
    "right-side",
    "start-cap",
    "end-cap",
    "left-join",
    "right-join",
    "gap",
    "circle",
];

// Whether a list says that an end of a side is exact.
fn end(exact: usize) -> &'static str {
    if exact == 1 { "exact" } else { "rounded" }
}

// The first edges of a list, five numbers an edge, or all if it has no more. Of a side its ends are told, the start first.
pub fn edges<W: Write>(page: &mut W, list: &[usize], count: usize) -> io::Result<()> {
    for (edge, numbers) in list.chunks_exact(5).take(count).enumerate() {
        let [reason, vertex, place, start, last] = numbers else {
            unreachable!();
        };
        let word = REASONS[(*reason).min(7)];
        write!(page, "{edge} {word} {vertex} {place}")?;
        if *reason < 2 {
            write!(page, " {} {}", end(*start), end(*last))?;
        }
        writeln!(page)?;
    }
    Ok(())
}

// A refusal's number and the number with it.
pub fn refusal<W: Write>(page: &mut W, refusal: Refusal) -> io::Result<()> {
    let told = Code::from(refusal);
    writeln!(page, "refused: {} {}", told.reply, told.number)
}
