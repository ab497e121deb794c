// Boundaries that close, as the calls give them: no code.
#![tactic(auto)]
