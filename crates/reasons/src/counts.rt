// How many edges each rule emits: the rule's own function, over no room.
ghost use Rattle.std.specs.Prelude.{◌≡◌, true, false, length};
ghost use Rattle.plane.specs.Vectors.{Near};
ghost use Rattle.plane.specs.Directions.{UnitLong};
ghost use Rattle.runs.specs.Runs.{Room};
ghost use Rattle.turning.specs.Edges.{edge_of, edge_numbers};
ghost use Rattle.turning.specs.Bounds.{About};
ghost use Rattle.contacts.specs.Contacts.{centre_of};
ghost use Rattle.contacts.specs.Bounds.{Inside, Around};
ghost use Rattle.joins.specs.Joins.{arc_about, start_cap, left_join, right_join, same_centre, gap_of};
ghost use Rattle.variable_stroke.specs.Bounds.{AroundChain, AroundWalk};
ghost use Rattle.variable_stroke.specs.Chains.{finish_of};
ghost use Rattle.reasons.specs.Lists.{end_reason};
ghost use Rattle.reasons.specs.Counts.{Counts};

use crate::Reason;
use contacts::{Section, Vertex};
use folds::Pen;
use joins::Cap;
use joins::builder_join::{arc_about, gap, left_turns, right_turns, start_cap};
use plane::{Point, Vector};
use turning::Sweep;
use turning::edges::edge;
use variable_stroke::{Chain, Walk};

// A walk after a step, and how many edges the step emits.
#[derive(Clone, Copy)]
pub struct Counted {
    pub walk: Walk,
    pub count: usize,
}

// What a finish is named: the end cap of the last section, or the circle of a lone vertex.
pub fn end_reason(last: Option<Section>) -> Reason
    ensures { result ≡ end_reason last }
{
    match last {
        Some(_) => Reason::EndCap,
        None => Reason::Circle,
    }
}

// The pen that lays every edge by itself.
fn plain(step: Vector) -> Pen
    ensures step { result.step ≡ step }
    ensures folds { result.folds ≡ false }
{
    Pen { step, folds: false }
}

// A side of a section, or a straight edge anywhere.
pub fn side(p: Point, q: Point) -> usize
    requires { Near p × Near q }
    ensures { result ≡ length (edge_of p q) }
{
    edge(&mut [], 0, p, q) / 4
}

// What ends a chain.
pub fn finish(t: Vector, chain: Chain, cap: Cap) -> usize
    requires { UnitLong t × AroundChain chain }
    ensures { result ≡ length (finish_of t chain cap) }
{
    chain.finish(&mut [], 0, plain(t), cap).at / 4
}

// The start cap.
pub fn start(t: Vector, s: Section, cap: Cap) -> usize
    requires { UnitLong t × Around s }
    ensures { result ≡ length (start_cap t s cap) }
{
    start_cap(&mut [], 0, plain(t), s, cap) / 4
}

// An arc about a vertex.
fn about(t: Vector, v: Vertex, p: Point, q: Point, choice: Sweep) -> usize
    requires unit_long { UnitLong t × Inside v × About (centre_of v) p × About (centre_of v) q }
    requires room { Room edge_numbers 0 (arc_about t v p q choice) }
    ensures { result ≡ length (arc_about t v p q choice) }
{
    arc_about(&mut [], 0, plain(t), v, p, q, choice) / 4
}

// The left of a join. Its own function is left to draw, whose code it is then laid into, and so is that of its right.
pub fn left(t: Vector, prev: Section, next: Section) -> usize
    requires { UnitLong t × Around prev × Around next × (same_centre prev next ≡ true) }
    ensures { result ≡ length (left_join t prev next) }
{
    if left_turns(prev, next) {
        about(t, next.a, next.left.a, prev.left.b, Sweep::Minor)
    } else {
        side(next.left.a, prev.left.b)
    }
}

// The right of a join.
pub fn right(t: Vector, prev: Section, next: Section) -> usize
    requires { UnitLong t × Around prev × Around next × (same_centre prev next ≡ true) }
    ensures { result ≡ length (right_join t prev next) }
{
    if right_turns(prev, next) {
        about(t, prev.b, prev.right.b, next.right.a, Sweep::Major)
    } else {
        side(prev.right.b, next.right.a)
    }
}

// The caps across a gap.
pub fn across(t: Vector, prev: Section, next: Section) -> usize
    requires { UnitLong t × Around prev × Around next }
    ensures { result ≡ length (gap_of t prev next) }
{
    gap(&mut [], 0, plain(t), prev, next) / 4
}

// A whole step: the walk after it too.
pub fn step(t: Vector, walk: Walk, b: Vertex) -> Counted
    requires { UnitLong t × AroundWalk walk × Inside b }
    ensures { Counts t walk b result }
{
    let stepped = walk.step(&mut [], 0, t, b);
    Counted {
        walk: stepped.walk,
        count: stepped.at / 4,
    }
}
