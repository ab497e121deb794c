// Many outlines in one chunk, behind a table of contents: make, find, remove, compact, and add once the outline is known to be sound.
#![tactic(auto)]

pub mod bytes;
pub mod compacting;
pub mod finding;
pub mod making;
pub mod part;
pub mod putting;
pub mod removing;
