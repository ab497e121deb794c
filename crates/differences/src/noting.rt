// Notes: a place and what differs there, two numbers each.
ghost use Rattle.std.specs.Prelude.{◌≡◌, ◌+◌, ◌^◌, ◌≤◌, ◌<◌, length, set};
ghost use Rattle.runs.specs.Runs.{Runs, put};
ghost use Rattle.differences.specs.Differences.{note_of, notes_from};
ghost use Rattle.differences.specs.Bodies.{single};

// The number w at i, where i is inside the room; nothing past it.
fn put_number(list: &mut [u32], i: usize, w: u32)
    ensures { list.new ≡ set list.old i w }
{
    if i < list.len() {
        list[i] = w;
    }
}

// A note, where something differs. Numbers past the room are not written; the position goes on all the same.
fn put_note(list: &mut [u32], at: usize, place: usize, what: u32) -> usize
    requires { (at + 2 < 2 ^ 64) × (place < 2 ^ 32) }
    ensures { Runs put single list.old at (note_of place what) list.new result }
{
    if what == 0 {
        return at;
    }
    put_number(list, at, place as u32);
    put_number(list, at + 1, what);
    at + 2
}

// The notes of all differences, from the first place on: they are written, and over no room they are counted.
pub fn put_notes(differing: &[u32], list: &mut [u32]) -> usize
    requires { length differing.now ≤ 4098 }
    ensures { Runs put single list.old 0 (notes_from 0 differing.now) list.new result }
{
    let mut at = 0;
    for (place, what) in differing.iter().enumerate() {
        at = put_note(list, at, place, *what);
    }
    at
}
