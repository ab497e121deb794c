// What of a store of a stroke differs from what its own header and vertices give, and the notes that list it: document 02, request 14.
#![tactic(auto)]

pub mod bodies;
pub mod fronts;
pub mod noting;
