// The kept outline: its layout, and what is proved of it.
#![tactic(auto)]

use kerb::Style;

pub mod layout;
pub mod posts;

// The editions of a stroke's outline: the second has a point number in each vertex's entry.
#[derive(Clone, Copy, PartialEq, Eq, Debug)]
pub enum Edition {
    First,
    Second,
}

// What an outline is of: a stroke with a radius at each vertex, in one of its editions, or a kerb with one style.
#[derive(Clone, Copy)]
pub enum Form {
    Stroke(Edition),
    Kerb(Style),
}
