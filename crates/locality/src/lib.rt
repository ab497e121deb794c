// How far a change reaches: no code.
#![tactic(auto)]
