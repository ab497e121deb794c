// For speed alone: a whole arc held in eleven numbers, and the pen that says whether arcs may be held so.
#![tactic(auto)]

use plane::{Point, Vector};
use turning::Edge;

pub mod folding;
pub mod unfolding;

// What edges are drawn with: the step of a grade, and whether an arc may stand folded.
#[derive(Clone, Copy)]
pub struct Pen {
    pub step: Vector,
    pub folds: bool,
}

// An arc whose rotations are counted: from a point, in a direction, so many of them, each to the point at the radius from the centre, and
// then to the end.
#[derive(Clone, Copy)]
pub struct Bow {
    pub turns: usize,
    pub direction: Vector,
    pub centre: Point,
    pub radius: i64,
    pub from: Point,
    pub to: Point,
}

// What stands in own numbers: an edge, or a whole arc.
#[derive(Clone, Copy)]
pub enum Fold {
    Straight(Edge),
    Bent(Bow),
}
