// The arcs and circles that are made of edges; follows src/mesh/int/arc/integer.rs.
#![tactic(auto)]

pub mod arcs;
pub mod circle;
pub mod fine;
