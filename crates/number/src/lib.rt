// Whole-number arithmetic that no machine operation gives: integer root, two-limb product, product over a divisor.
#![tactic(auto)]

pub mod division;
pub mod guess;
pub mod root;
pub mod sign;
pub mod wide;
