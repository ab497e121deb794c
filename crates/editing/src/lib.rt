// Outlines changed in place.
#![tactic(auto)]

pub mod replacing;
