// The oldest chunks: a vertex as three 32-bit floats, taken as whole numbers and written back.
#![tactic(auto)]

pub mod exporting;
pub mod importing;
mod lent;
mod putting;
pub mod taking;
pub mod writing;

// A vertex of the oldest chunks: x, y and full width, in millimetres.
#[derive(Clone, Copy, Debug)]
pub struct OldVertex {
    pub x: f32,
    pub y: f32,
    pub width: f32,
}

// Why a float is not taken as a whole number, with the float.
#[derive(Clone, Copy, Debug)]
pub enum NotTaken {
    NotANumber(f32),
    Infinite(f32),
    Fraction(f32),
    TooLarge(f32),
    NegativeWidth(f32),
    OddWidth(f32),
}

// A vertex as whole numbers: x, y and radius, in millimetres.
#[derive(Clone, Copy, Debug, PartialEq, Eq)]
pub struct WholeVertex {
    pub x: i32,
    pub y: i32,
    pub radius: i32,
}

// Why a vertex is not taken: the place of its first number that is not, 0 to 2, and why that is not.
#[derive(Clone, Copy, Debug)]
pub struct VertexNotTaken {
    pub place: usize,
    pub reason: NotTaken,
}
