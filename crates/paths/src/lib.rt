// Paths in lent numbers, and the walk over one, which is the edges of a path.
#![tactic(auto)]

pub mod paths;
