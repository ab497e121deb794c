// Laws of runs: things written one after another into lent room, or compared with what stands there; no code.
#![tactic(auto)]
