// A kerb's points in lent numbers, and the tour over them, which is the edges of a kerb.
#![tactic(auto)]

pub mod pieces;
pub mod points;
