// A store compared with the outline that its own vertices give.
#![tactic(auto)]

pub mod compare;
pub mod difference;

// What a comparison came to: how far the table agrees, how far the bodies do, and where the bodies that are due end.
#[derive(Clone, Copy)]
pub struct Compared {
    pub table: usize,
    pub bodies: usize,
    pub end: usize,
}
