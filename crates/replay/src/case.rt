// A case's calls: the memory lent for each is filled, the call made, and its answer printed.
use crate::edit::print_edit;
use crate::reply;
use cases::answer::{Reply, print_with};
use cases::head::{Case, Lent, Place, read_head};
use cases::{canary, entries};
use lines::page;
use lines::token::Numbers;
use std::io;
use std::io::Write;

// The memory that is lent to calls.
#[derive(Drop)]
pub struct Memory {
    pub path: Vec<i32>,
    pub room: Vec<i32>,
    pub store: Vec<u8>,
}

// What is said of a line that is no case, or none that the memory here holds.
pub fn no_case<W: Write>(page: &mut W) -> io::Result<()> {
    page::text(page, b"no case")
}

// Draws the path that the line goes on with, into as much memory as the case asks for.
fn draw<'a>(
    numbers: &mut Numbers<'_>,
    lent: Lent,
    memory: &'a mut Memory,
) -> Option<(Reply, &'a [i32])> {
    let path = memory.path.as_mut_slice().get_mut(..lent.count)?;
    let room = memory.room.as_mut_slice().get_mut(..lent.room)?;
    entries::read(numbers, path)?;
    canary::fill(room);
    let reply = reply::of(calls::draw(path, lent.grade, room));
    Some((reply, room))
}

// Keeps the path that the line goes on with, in as much memory as the case asks for.
fn keep<'a>(
    numbers: &mut Numbers<'_>,
    lent: Lent,
    memory: &'a mut Memory,
) -> Option<(Reply, &'a [u8])> {
    let path = memory.path.as_mut_slice().get_mut(..lent.count)?;
    let store = memory.store.as_mut_slice().get_mut(..lent.room)?;
    entries::read(numbers, path)?;
    canary::fill(store);
    let reply = reply::of(calls::keep(path, lent.grade, store));
    Some((reply, store))
}

// Reads the store that the line goes on with, into as much memory as the case asks for.
fn read<'a>(
    numbers: &mut Numbers<'_>,
    room: usize,
    count: usize,
    memory: &'a mut Memory,
) -> Option<(Reply, &'a [i32])> {
    let store = memory.store.as_mut_slice().get_mut(..count)?;
    let room = memory.room.as_mut_slice().get_mut(..room)?;
    entries::read(numbers, store)?;
    canary::fill(room);
    let reply = reply::of_read(calls::read(store, room));
    Some((reply, room))
}

// Replaces a vertex of the store that the line goes on with.
fn replace<'a>(
    numbers: &mut Numbers<'_>,
    place: Place,
    count: usize,
    memory: &'a mut Memory,
) -> Option<(Reply, &'a [u8])> {
    let store = memory.store.as_mut_slice().get_mut(..count)?;
    entries::read(numbers, store)?;
    let replaced = calls::replace(store, place.index, place.x, place.y, place.radius);
    Some((reply::of(replaced), store))
}

// The answer of a call, with the memory that it was lent, or that the line is no case.
fn print<W: Write, E: Copy + Into<i64>>(
    page: &mut W,
    answer: Option<(Reply, &[E])>,
) -> io::Result<()> {
    match answer {
        Some((reply, memory)) => print_with(page, reply, memory),
        None => no_case(page),
    }
}

// The answer to a line, and a line end.
pub fn print_line<W: Write>(line: &[u8], page: &mut W, memory: &mut Memory) -> io::Result<()> {
    let mut numbers = Numbers::of(line);
    match read_head(&mut numbers) {
        Some(Case::Draw(lent)) => print(page, draw(&mut numbers, lent, memory)),
        Some(Case::Keep(lent)) => print(page, keep(&mut numbers, lent, memory)),
        Some(Case::Read { room, count }) => { print(page, read(&mut numbers, room, count, memory)) }
        Some(Case::Replace(place, count)) => {
            print(page, replace(&mut numbers, place, count, memory))
        }
        Some(Case::Edit(lent, damage, place)) => {
            print_edit(&mut numbers, page, lent, damage, place, memory)
        }
        None => no_case(page),
    }?;
    page::line_end(page)
}
