// Chains of sections, and the walk that makes them step by step; follows builder.rs of src/mesh/int/variable_stroke.
#![tactic(auto)]

use contacts::{Section, Vertex};
use joins::Cap;

pub mod builder;

// A chain: its start vertex and start cap, the last drawn section, and the mark that a step was made.
#[derive(Clone, Copy)]
pub struct Chain {
    pub start: Vertex,
    pub cap: Cap,
    pub last: Option<Section>,
    pub mark: bool,
}

// A walk over a path: the vertex reached, the chain, the section of the previous step if that was drawn, and the closing cap.
#[derive(Clone, Copy)]
pub struct Walk {
    pub at: Vertex,
    pub chain: Chain,
    pub previous: Option<Section>,
    pub closing: Cap,
}
