// What salvage writes is sound, and its list is empty exactly where the old store was: no code.
#![tactic(auto)]
