// What a tour has yet to give of a kerb's outline; definitions and laws alone.
#![tactic(auto)]
