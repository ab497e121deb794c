// How many rotations an arc can need: no code.
#![tactic(auto)]
