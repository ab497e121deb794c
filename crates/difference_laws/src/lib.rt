// Nothing differs exactly where a store is sound: no code.
#![tactic(auto)]
