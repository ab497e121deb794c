// Boundaries that close: no code.
#![tactic(auto)]
