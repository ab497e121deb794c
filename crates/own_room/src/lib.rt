// How many own numbers hold a step's edges on their way: no code.
#![tactic(auto)]
