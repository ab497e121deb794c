// Why an edge is there: the rule that emits it, the vertex whose body holds it and its place under that rule; document 02, request 1. Of a side also which
// of its ends are exact; request 7.
#![tactic(auto)]

use contacts::Exactness;

pub mod counts;
pub mod explain;
pub mod labels;
pub mod listing;

// The rule that emits an edge; numbered from 0 in this order. A side has its exactness, as the edge runs.
#[derive(Clone, Copy)]
pub enum Reason {
    LeftSide(Exactness),
    RightSide(Exactness),
    StartCap,
    EndCap,
    LeftJoin,
    RightJoin,
    Gap,
    Circle,
}

// Why an edge is there: its rule, the vertex whose body holds it (the number of vertices for the closing body), and its place from 0 under that rule.
#[derive(Clone, Copy)]
pub struct Why {
    pub reason: Reason,
    pub vertex: usize,
    pub place: usize,
}
