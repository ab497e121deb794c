// Edges, and how an arc turns from one to the next; follows src/mesh/int/arc/integer.rs.
#![tactic(auto)]

use plane::{Point, Vector};

pub mod edges;
pub mod kinds;
pub mod turn;

// An edge, from a to b.
#[derive(Clone, Copy, PartialEq, Eq, Debug)]
pub struct Edge {
    pub a: Point,
    pub b: Point,
}

// How far an arc turns: less than half a turn, or more.
#[derive(Clone, Copy, PartialEq, Eq, Debug)]
pub enum Sweep {
    Minor,
    Major,
}

// What an arc keeps while it turns: the step, the centre and radius of its inner points, the end and the end's direction.
#[derive(Clone, Copy)]
pub struct Turning {
    pub step: Vector,
    pub centre: Point,
    pub radius: i64,
    pub to: Point,
    pub toward: Vector,
}
