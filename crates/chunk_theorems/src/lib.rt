// An outline added to a chunk, and a vertex replaced in one: no code.
#![tactic(auto)]
