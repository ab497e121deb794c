// The table of contents of a chunk: its words, its entries in order, and whether it is damaged.
#![tactic(auto)]

pub mod damage;
pub mod sorting;
pub mod stacking;
pub mod table;
