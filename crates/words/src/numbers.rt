// Numbers as words, one after another: written, and compared.
ghost use Rattle.std.specs.Prelude.{◌+◌, ◌*◌, ◌≤◌, ◌<◌, ◌^◌, length, take};
ghost use Rattle.runs.specs.Runs.{Runs, Room, put, agree};
ghost use Rattle.words.specs.Words.{words_of, four_bytes};
ghost use Rattle.words.specs.Numbers.{Alike};

use crate::{bits, place_word, put_word, same_word, word_from};

// The numbers as words, as far as the room goes.
fn put_some(from: &[i32], s: &mut [u8], at: usize) -> usize
    requires { Room four_bytes at (words_of from.now) }
    ensures { Runs put four_bytes s.old at (words_of from.now) s.new result }
{
    let mut pos = at;
    for &z in from {
        pos = put_word(s, pos, bits(z));
    }
    pos
}

// The numbers as words, all of them inside the room.
fn place_numbers(from: &[i32], s: &mut [u8], at: usize)
    requires { at + 4 * length from.now ≤ length s.old }
    ensures { Runs put four_bytes s.old at (words_of from.now) s.new (at + 4 * length from.now) }
{
    for (j, &z) in from.iter().enumerate() {
        place_word(s, at + 4 * j, bits(z));
    }
}

// The first n numbers as words: n stands beside them, as in the calls, which hold more numbers than are due.
pub fn put_numbers(from: &[i32], n: usize, s: &mut [u8], at: usize) -> usize
    requires n_in_bounds { n ≤ length from.now }
    requires room { Room four_bytes at (words_of (take n from.now)) }
    ensures { Runs put four_bytes s.old at (words_of (take n from.now)) s.new result }
{
    let from = &from[..n];
    let end = at + 4 * n;
    if s.len() < end {
        return put_some(from, s, at);
    }
    place_numbers(from, s, at);
    end
}

// The numbers as words compared, one by one.
fn same_each(from: &[i32], s: &[u8], ok: usize, at: usize) -> usize
    requires { at + 4 * length from.now < 2 ^ 64 }
    ensures { Runs (agree s.now) four_bytes ok at (words_of from.now) result (at + 4 * length from.now) }
{
    let mut good = ok;
    for (j, &z) in from.iter().enumerate() {
        good = same_word(s, good, at + 4 * j, bits(z));
    }
    good
}

// How many of the numbers, from the first on, stand as words in a store that is long enough for all.
fn alike(from: &[i32], s: &[u8], at: usize) -> usize
    requires { at + 4 * length from.now ≤ length s.now }
    ensures { Alike s.now from.now at result }
{
    for (j, &z) in from.iter().enumerate() {
        if word_from(s, at + 4 * j) != bits(z) {
            return j;
        }
    }
    from.len()
}

// The first n numbers as words: where all before them agrees, those that do in one go.
pub fn same_numbers(from: &[i32], n: usize, s: &[u8], ok: usize, at: usize) -> usize
    requires n_in_bounds { n ≤ length from.now }
    requires n_bound { at + 4 * n < 2 ^ 64 }
    ensures { Runs (agree s.now) four_bytes ok at (words_of (take n from.now)) result (at + 4 * n) }
{
    let from = &from[..n];
    if ok != at || s.len() < at + 4 * n {
        return same_each(from, s, ok, at);
    }
    let same = alike(from, s, at);
    let next = at + 4 * same;
    same_each(&from[same..], s, next, next)
}
