// For speed alone: an arc's edges counted without its points, and by leaps over many rotations.
#![tactic(auto)]

pub mod counting;
pub mod landing;
pub mod leaps;
pub mod turns;
