// Keep, damage, read and replace after one another on one store.
use crate::case::{Memory, no_case};
use crate::reply;
use calls::{keep, read, replace};
use cases::answer::print_with;
use cases::head::{Damage, Lent, Place};
use cases::{canary, entries};
use lines::page;
use lines::token::Numbers;
use replies::Refusal;
use std::io;
use std::io::Write;

// The bytes that a kept path asks for, 0 if it is refused anyhow.
fn asked(path: &[i32], grade: u32) -> usize {
    match keep(path, grade, &mut []) {
        Err(Refusal::NoRoom(needed)) => needed,
        _ => 0,
    }
}

// How long a store an edit is lent: the bytes that the path asks for, which the line goes on with, and `lent.room` more.
fn store_length(numbers: &mut Numbers<'_>, lent: Lent, path: &mut [i32]) -> Option<usize> {
    entries::read(numbers, path)?;
    asked(path, lent.grade).checked_add(lent.room)
}

// Adds to the byte at a place, if there is one.
fn damage_store(store: &mut [u8], damage: Damage) {
    if let Some(byte) = store.get_mut(damage.at) {
        *byte = byte.wrapping_add(damage.value);
    }
}

// The answers of the three calls, on one store; the path is read back into as many numbers as it has.
fn print_calls<W: Write>(
    page: &mut W,
    grade: u32,
    damage: Damage,
    place: Place,
    path: &[i32],
    room: &mut [i32],
    store: &mut [u8],
) -> io::Result<()> {
    canary::fill(store);
    let kept = reply::of(keep(path, grade, store));
    print_with(page, kept, store)?;
    if kept.reply != 0 {
        return Ok(());
    }
    damage_store(store, damage);
    canary::fill(room);
    let outcome = reply::of_read(read(store, room));
    page::space(page)?;
    print_with(page, outcome, room)?;
    let replaced = replace(store, place.index, place.x, place.y, place.radius);
    page::space(page)?;
    print_with(page, reply::of(replaced), store)
}

// The answer to an edit, if the memory here holds it.
pub fn print_edit<W: Write>(
    numbers: &mut Numbers<'_>,
    page: &mut W,
    lent: Lent,
    damage: Damage,
    place: Place,
    memory: &mut Memory,
) -> io::Result<()> {
    let Some(path) = memory.path.as_mut_slice().get_mut(..lent.count) else {
        return no_case(page);
    };
    let Some(room) = memory.room.as_mut_slice().get_mut(..lent.count) else {
        return no_case(page);
    };
    let Some(length) = store_length(numbers, lent, path) else {
        return no_case(page);
    };
    let Some(store) = memory.store.as_mut_slice().get_mut(..length) else {
        return no_case(page);
    };
    print_calls(page, lent.grade, damage, place, path, room, store)
}
