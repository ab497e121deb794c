// Numbers in text: read token by token from a lent text, and printed through a lent page.
#![tactic(auto)]

pub mod line;
pub mod page;
pub mod token;
