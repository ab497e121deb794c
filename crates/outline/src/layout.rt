// The kept outline's numbers, each here alone: editions, kinds and lengths. They are appended, never renumbered.
ghost use Rattle.std.specs.Prelude.{◌≡◌, ◌^◌, ◌<◌};
ghost use Rattle.outline.specs.Layout.{edition_number, stroke_words, stroke_bytes, edition_word, kind_word, header_bytes, front_bytes, length_of};
ghost use Rattle.outline.specs.Outlines.{join_word, closed_word};
ghost use Rattle.outline.specs.Stores.{edition_of};

use crate::{Edition, Form};
use kerb::Join;

// The editions.
pub const FIRST_EDITION: u32 = 1;

pub const SECOND_EDITION: u32 = 2;

// The kind of an outline with a radius at each vertex, and of a kerb's.
pub const STROKE_KIND: u32 = 0;

pub const KERB_KIND: u32 = 1;

// Words of the header, and of a kerb's entry.
pub const HEADER_WORDS: usize = 5;

pub const KERB_HEADER_WORDS: usize = 8;

pub const KERB_ENTRY_WORDS: usize = 2;

// Bytes of the header, of a kerb's entry and of an edge.
pub const HEADER: usize = 4 * HEADER_WORDS;

pub const KERB_HEADER: usize = 4 * KERB_HEADER_WORDS;

pub const KERB_ENTRY: usize = 4 * KERB_ENTRY_WORDS;

pub const EDGE: usize = 16;

// Bytes of an outline with no vertex: a header and the counts, one of a stroke, three of a kerb.
pub const LEAST: usize = HEADER + 4;

pub const KERB_LEAST: usize = KERB_HEADER + 12;

impl Edition {
    // The edition of a word that is one's number. A caller has passed the row of editions before, so no other word comes, and no TryFrom
    // stands here: its error would be one that nobody meets.
    pub fn of(word: u32) -> Edition
        ensures { result ≡ edition_of word }
    {
        if word == SECOND_EDITION {
            Edition::Second
        } else {
            Edition::First
        }
    }

    // Words of a vertex's entry, and its bytes.
    pub fn entry_words(self) -> usize
        ensures { result ≡ stroke_words self }
    {
        match self {
            Edition::First => 4,
            Edition::Second => 5,
        }
    }

    pub fn entry_bytes(self) -> usize
        ensures { result ≡ stroke_bytes self }
    {
        match self {
            Edition::First => 16,
            Edition::Second => 20,
        }
    }
}

// An edition's number.
impl From<Edition> for u32 {
    ghost from_gives = { λ edition number. number ≡ edition_number edition };

    fn from(edition: Edition) -> u32 {
        match edition {
            Edition::First => FIRST_EDITION,
            Edition::Second => SECOND_EDITION,
        }
    }
}

// A join's word, and whether a kerb is closed as one: what `kerb` declares knows nothing of words that are kept.
pub fn join_word(join: Join) -> u32
    ensures { result ≡ join_word join }
{
    join as u32
}

pub fn closed_word(closed: bool) -> u32
    ensures { result ≡ closed_word closed }
{
    u32::from(closed)
}

impl Form {
    // The number of its edition: a kerb's is the first.
    pub fn edition_word(self) -> u32
        ensures { result ≡ edition_word self }
    {
        match self {
            Form::Stroke(edition) => u32::from(edition),
            Form::Kerb(_) => FIRST_EDITION,
        }
    }

    pub fn kind_word(self) -> u32
        ensures { result ≡ kind_word self }
    {
        match self {
            Form::Stroke(_) => STROKE_KIND,
            Form::Kerb(_) => KERB_KIND,
        }
    }

    // Bytes of the header.
    pub fn header_bytes(self) -> usize
        ensures { result ≡ header_bytes self }
    {
        match self {
            Form::Stroke(_) => HEADER,
            Form::Kerb(_) => KERB_HEADER,
        }
    }

    // Bytes before the bodies: header, n entries and the counts.
    pub fn front(self, n: usize) -> usize
        requires { front_bytes self n < 2 ^ 64 }
        ensures { result ≡ front_bytes self n }
    {
        match self {
            Form::Stroke(edition) => LEAST + edition.entry_bytes() * n,
            Form::Kerb(_) => KERB_LEAST + KERB_ENTRY * n,
        }
    }

    // Bytes of an outline with n vertices and m edges.
    pub fn whole_length(self, n: usize, m: usize) -> usize
        requires { length_of self n m < 2 ^ 64 }
        ensures { result ≡ length_of self n m }
    {
        self.front(n) + EDGE * m
    }
}
