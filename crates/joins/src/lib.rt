// Caps and joins; follows builder_join.rs of src/mesh/int/variable_stroke.
#![tactic(auto)]

pub mod builder_join;

// How a chain starts or ends.
#[derive(Clone, Copy, PartialEq, Eq)]
pub enum Cap {
    Butt,
    Round,
}
