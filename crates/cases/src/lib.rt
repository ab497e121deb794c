// Cases of the public calls as text: the lines of a long input, the entries of a line, lent memory before a call and after it.
#![tactic(auto)]

pub mod answer;
pub mod canary;
pub mod checksum;
pub mod entries;
pub mod head;
pub mod stream;
