// Side by side for C and Rust: numbers and slices only.
ghost use Rattle.std.specs.Prelude.{◌≡◌, ◌^◌, ◌<◌};
ghost use Rattle.sides.specs.Sides.{reply_of_located, offset_of_located, length_of_located};
ghost use Rattle.sehmelir.specs.SideBoundary.{sheet_of, PlaceReplies, SideReplies};

use crate::chunk_calls::Part;
use outline::layout::EDGE;
use replies::Refusal;
use sides::{Located, Sheet, locate};

// The choice of a sheet: the later one, or the earlier.
fn sheet_of(later: bool) -> Sheet
    ensures { result ≡ sheet_of later }
{
    if later { Sheet::After } else { Sheet::Before }
}

// Where a body was located, as a part with its edges as the number.
fn located(answer: Result<Located, Refusal>) -> Part
    requires { length_of_located answer < 2 ^ 64 }
    ensures { PlaceReplies result (reply_of_located answer) (offset_of_located answer) (length_of_located answer) }
{
    match answer {
        Ok(Located { offset, edges }) => Part {
            reply: 0,
            zero: 0,
            number: edges as u64,
            offset: offset as u64,
            length: (EDGE * edges) as u64,
        },
        Err(refusal) => Part::from(refusal),
    }
}

// Hands back the body of a vertex as a part of the sheet before an edit, or of the later one.
#[unsafe(no_mangle)]
pub extern "C" fn sehmelir_side(before: &[u8], after: &[u8], later: bool, vertex: usize) -> Part
    ensures { SideReplies before.now after.now later vertex result }
{
    located(locate(before, after, sheet_of(later), vertex))
}
