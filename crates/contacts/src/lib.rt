// Vertices and the sections between them: contacts, kinds of step, covering; follows math.rs and section.rs of src/mesh/int/variable_stroke.
#![tactic(auto)]

use turning::Edge;

pub mod limits;
pub mod math;
pub mod sections;

// A vertex of a path. It has no invariant: what is lent may lie outside the limits, and `limits::allowed` tells.
#[derive(Clone, Copy)]
pub struct Vertex {
    pub x: i64,
    pub y: i64,
    pub radius: i64,
}

// Whether the radius falls, stays or grows along a section.
#[derive(Clone, Copy)]
pub enum Trend {
    Decreasing,
    Constant,
    Increasing,
}

// Which ends of an edge are exact contacts (document 02, request 7).
#[derive(Clone, Copy)]
pub struct Exactness {
    pub a: bool,
    pub b: bool,
}

// The same of both sides of a section: four marks, one a contact.
#[derive(Clone, Copy)]
pub struct ExactSides {
    pub left: Exactness,
    pub right: Exactness,
}

// A drawn step from a to b: its contacts, from a's to b's, on the left and on the right, and which of them are exact. It has no invariant: a chain
// or a walk of any sections can be made anew, so a type that holds `Around` would ask more of those who call `Chain::start` and `thin`.
#[derive(Clone, Copy)]
pub struct Section {
    pub a: Vertex,
    pub b: Vertex,
    pub left: Edge,
    pub right: Edge,
    pub trend: Trend,
    pub exact: ExactSides,
}

// What a step is.
#[derive(Clone, Copy)]
pub enum Kind {
    Broken,
    Drawn,
    Thin,
}
