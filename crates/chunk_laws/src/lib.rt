// What the calls on a chunk leave in it: no code.
#![tactic(auto)]
