// Theorems over several calls, and the marked examples: no code.
#![tactic(auto)]
