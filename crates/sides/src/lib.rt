// Side by side: of two lent sheets, one from before an edit and one from after it, the body of a vertex as a part of the chosen one; document 02, request 10.
#![tactic(auto)]

ghost use Rattle.std.specs.Prelude.{◌≡◌, ◌≤◌, length};
ghost use Rattle.outline.specs.declared.Form.TheVariants.{Stroke};
ghost use Rattle.checking.specs.StoreChecks.{Sound};
ghost use Rattle.sides.specs.Sides.{chosen, Locates, HandsBack};

use crate::bodies::Marked;
use checking::check;
use checking::sizes::{OWN_NUMBERS, PATH_NUMBERS};
use heading::Header;
use outline::Edition;
use outline::layout::EDGE;
use replies::{Code, Refusal};

pub mod bodies;

// Which of the two sheets.
#[derive(Clone, Copy)]
pub enum Sheet {
    Before,
    After,
}

impl Sheet {
    // The chosen one of two.
    fn chosen<'a>(self, before: &'a [u8], after: &'a [u8]) -> &'a [u8]
        ensures { result.now ≡ chosen self before.now after.now }
    {
        match self {
            Sheet::Before => before,
            Sheet::After => after,
        }
    }
}

// Where a body stands: the byte of its sheet at which it begins, and how many edges it has.
#[derive(Clone, Copy)]
pub struct Located {
    pub offset: usize,
    pub edges: usize,
}

// A sheet that passed its rows and is of a stroke marks off its bodies.
fn marked(bytes: &[u8], header: Header, edition: Edition) -> Marked<'_>
    requires { Sound bytes.now header × (header.form ≡ Stroke edition) }
    ensures { result.bytes.now ≡ bytes.now }
{
    Marked {
        bytes,
        edition,
        n: header.n,
    }
}

// Where a body of the chosen sheet stands; `path` and `own` are room to check both sheets in, the earlier first.
pub fn locate_with(
    before: &[u8],
    after: &[u8],
    sheet: Sheet,
    vertex: usize,
    path: &mut [i32],
    own: &mut [i32],
) -> Result<Located, Refusal>
    requires { (PATH_NUMBERS ≤ length path.old) × (OWN_NUMBERS ≤ length own.old) }
    ensures { Locates before.now after.now sheet vertex result }
{
    let earlier = check(before, path, own)?;
    let later = check(after, path, own)?;
    let first = earlier.stroke_edition()?;
    let second = later.stroke_edition()?;
    match sheet {
        Sheet::Before => marked(before, earlier, first).body(vertex),
        Sheet::After => marked(after, later, second).body(vertex),
    }
}

// Tells where the body of a vertex stands in the chosen one of two sheets.
pub fn locate(before: &[u8], after: &[u8], sheet: Sheet, vertex: usize) -> Result<Located, Refusal>
    ensures { Locates before.now after.now sheet vertex result }
{
    let mut path = [0i32; PATH_NUMBERS];
    let mut own = [0i32; OWN_NUMBERS];
    locate_with(before, after, sheet, vertex, &mut path, &mut own)
}

// Hands back the body of a vertex as a part of the chosen one of two sheets, an empty one when refused; the reply and its number go beside it.
pub fn beside<'a>(
    before: &'a [u8],
    after: &'a [u8],
    sheet: Sheet,
    vertex: usize,
    reply: &mut u32,
    number: &mut u64,
) -> &'a [u8]
    ensures { HandsBack before.now after.now sheet vertex reply.new number.new result.now }
{
    let chosen = sheet.chosen(before, after);
    match locate(before, after, sheet, vertex) {
        Ok(located) => {
            *reply = 0;
            *number = located.edges as u64;
            let end = located.offset + EDGE * located.edges;
            &chosen[located.offset..end]
        }
        Err(refusal) => {
            let code = Code::from(refusal);
            *reply = code.reply;
            *number = code.number;
            &chosen[0..0]
        }
    }
}
