// A line that holds numbers alone.
ghost use Rattle.std.specs.Prelude.{◌≤◌, length, IfSome};

use crate::token::{Number, Numbers};
use std::fmt;

// Why a line has no answer: it is no case, or its numbers lie outside what the function takes.
#[derive(Clone, Copy, Debug, PartialEq, Eq)]
pub enum Refusal {
    NoCase,
    Outside,
}

impl fmt::Display for Refusal {
    fn fmt<W: fmt::Write>(&self, f: &mut fmt::Formatter<W>) -> fmt::Result {
        match self {
            Refusal::NoCase => write!(f, "no case"),
            Refusal::Outside => write!(f, "outside"),
        }
    }
}

// Fills a room with the next numbers, as far as there are; how many.
fn fill(numbers: &mut Numbers<'_>, room: &mut [Number]) -> usize
    ensures { result ≤ length room.old }
{
    for (count, place) in room.iter_mut().enumerate() {
        let Some(number) = numbers.next() else {
            return count;
        };
        *place = number;
    }
    room.len()
}

// The numbers of a line, at the front of a room, if it holds nothing else and there is room for all.
pub fn read_numbers<'a>(line: &[u8], room: &'a mut [Number]) -> Option<&'a [Number]>
    ensures { IfSome result (λ numbers. length numbers.now ≤ length room.old) }
{
    let mut numbers = Numbers::of(line);
    let count = fill(&mut numbers, room);
    numbers.is_done().then_some(&room[..count])
}
