// Points and vectors of the plane, directions, and turns by them.
#![tactic(auto)]

pub mod direction;
pub mod rotation;
pub mod vectors;

// A point.
#[derive(Clone, Copy, PartialEq, Eq, Debug)]
pub struct Point {
    pub x: i64,
    pub y: i64,
}

// The way from one point to another; a direction, in units of 2^-30.
#[derive(Clone, Copy, PartialEq, Eq, Debug)]
pub struct Vector {
    pub x: i64,
    pub y: i64,
}
