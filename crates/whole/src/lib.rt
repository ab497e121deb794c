// Laws of whole numbers, signed and not; no code.
#![tactic(auto)]
