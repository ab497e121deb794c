// A case without its entries: its code and the numbers before them.
ghost use Rattle.std.specs.Prelude.{◌≤◌};
ghost use Rattle.lines.specs.Rests.{LeftOf};

use lines::token::{Number, Numbers};

// No lent memory has so many entries.
const PAST: u64 = 1 << 63;

// A grade, how many entries are lent, and how many follow.
#[derive(Clone, Copy, Debug, PartialEq, Eq)]
pub struct Lent {
    pub grade: u32,
    pub room: usize,
    pub count: usize,
}

// A vertex in the place of another.
#[derive(Clone, Copy, Debug, PartialEq, Eq)]
pub struct Place {
    pub index: usize,
    pub x: i32,
    pub y: i32,
    pub radius: i32,
}

// What is added to the byte at a place.
#[derive(Clone, Copy, Debug, PartialEq, Eq)]
pub struct Damage {
    pub at: usize,
    pub value: u8,
}

// The calls that a case makes. How many numbers or bytes follow stands in `count`, or beside a replacement.
#[derive(Clone, Copy, Debug, PartialEq, Eq)]
pub enum Case {
    Draw(Lent),
    Keep(Lent),
    Read { room: usize, count: usize },
    Replace(Place, usize),
    Edit(Lent, Damage, Place),
}

// The number, or the most if it is above that or has a minus.
fn capped(number: Number, most: u64) -> u64
    ensures { result ≤ most }
{
    number.natural().map_or(most, |size| size.min(most))
}

// A grade. One that no u32 holds counts as the largest.
fn read_grade(numbers: &mut Numbers<'_>) -> Option<u32>
    ensures { LeftOf numbers.old.rest.now numbers.new.rest.now }
{
    Some(capped(numbers.next()?, 0xFFFF_FFFF) as u32)
}

// A place in lent memory. One that no memory has counts as `PAST`.
fn read_index(numbers: &mut Numbers<'_>) -> Option<usize>
    ensures { LeftOf numbers.old.rest.now numbers.new.rest.now }
{
    Some(capped(numbers.next()?, PAST) as usize)
}

// How many entries are lent or follow.
fn read_count(numbers: &mut Numbers<'_>) -> Option<usize>
    ensures { LeftOf numbers.old.rest.now numbers.new.rest.now }
{
    Some(numbers.next()?.natural()? as usize)
}

// A number of 32 bits.
fn read_entry(numbers: &mut Numbers<'_>) -> Option<i32>
    ensures { LeftOf numbers.old.rest.now numbers.new.rest.now }
{
    i32::try_from(numbers.next()?).ok()
}

// `grade room n`.
fn read_lent(numbers: &mut Numbers<'_>) -> Option<Lent>
    ensures { LeftOf numbers.old.rest.now numbers.new.rest.now }
{
    Some(Lent {
        grade: read_grade(numbers)?,
        room: read_count(numbers)?,
        count: read_count(numbers)?,
    })
}

// `index x y radius`.
fn read_place(numbers: &mut Numbers<'_>) -> Option<Place>
    ensures { LeftOf numbers.old.rest.now numbers.new.rest.now }
{
    Some(Place {
        index: read_index(numbers)?,
        x: read_entry(numbers)?,
        y: read_entry(numbers)?,
        radius: read_entry(numbers)?,
    })
}

// `at value`.
fn read_damage(numbers: &mut Numbers<'_>) -> Option<Damage>
    ensures { LeftOf numbers.old.rest.now numbers.new.rest.now }
{
    Some(Damage {
        at: read_index(numbers)?,
        value: (numbers.next()?.size % 256) as u8,
    })
}

// `grade extra at value index x y radius n`.
fn read_edit(numbers: &mut Numbers<'_>) -> Option<Case>
    ensures { LeftOf numbers.old.rest.now numbers.new.rest.now }
{
    let grade = read_grade(numbers)?;
    let room = read_count(numbers)?;
    let damage = read_damage(numbers)?;
    let place = read_place(numbers)?;
    let count = read_count(numbers)?;
    Some(Case::Edit(Lent { grade, room, count }, damage, place))
}

// The case that a line begins with, by the text's own codes; its entries are the numbers that are left.
pub fn read_head(numbers: &mut Numbers<'_>) -> Option<Case>
    ensures { LeftOf numbers.old.rest.now numbers.new.rest.now }
{
    match numbers.next()?.natural()? {
        1 => Some(Case::Draw(read_lent(numbers)?)),
        2 => Some(Case::Keep(read_lent(numbers)?)),
        3 => Some(Case::Read {
            room: read_count(numbers)?,
            count: read_count(numbers)?,
        }),
        4 => Some(Case::Replace(read_place(numbers)?, read_count(numbers)?)),
        5 => read_edit(numbers),
        _ => None,
    }
}
