// How far another vertex in a kept outline can reach.
#![tactic(auto)]

pub mod reach;
pub mod walk;
