// Caps and joins; follows src/mesh/int/variable_stroke/builder_join.rs.
ghost use Rattle.std.specs.Prelude.{◌≡◌, true};
ghost use Rattle.runs.specs.Runs.{Room};
ghost use Rattle.plane.specs.Directions.{UnitLong};
ghost use Rattle.turning.specs.Edges.{edge_numbers};
ghost use Rattle.turning.specs.Bounds.{About, Reach};
ghost use Rattle.folds.specs.Pens.{Lays};
ghost use Rattle.contacts.specs.Contacts.{centre_of};
ghost use Rattle.joins.specs.Joins.{arc_about, start_choice, start_cap, end_choice, end_cap, along_of, bend_of, left_turns, left_join, right_turns, right_join, same_centre, gap_of, join_of};
ghost use Rattle.contacts.specs.Bounds.{Inside, Around};

use crate::Cap;
use arc::arcs::arc;
use contacts::math::{centre, line};
use contacts::{Section, Trend, Vertex};
use folds::Pen;
use plane::vectors::{cross, from_to};
use plane::{Point, Vector};
use turning::edges::edge;
use turning::{Edge, Sweep};

// An arc between two contacts of a vertex.
pub fn arc_about(
    out: &mut [i32],
    at: usize,
    pen: Pen,
    v: Vertex,
    p: Point,
    q: Point,
    choice: Sweep,
) -> usize
    requires unit_long { UnitLong pen.step × Inside v × About (centre_of v) p × About (centre_of v) q }
    requires room { Room edge_numbers at (arc_about pen.step v p q choice) }
    ensures { Lays pen.step pen.folds out.old at (arc_about pen.step v p q choice) out.new result }
{
    arc(out, at, pen, centre(v), p, q, choice)
}

// How a start cap sweeps where its rays are aligned.
fn start_choice(trend: Trend) -> Sweep
    ensures { result ≡ start_choice trend }
{
    match trend {
        Trend::Decreasing => Sweep::Major,
        Trend::Constant | Trend::Increasing => Sweep::Minor,
    }
}

// How an end cap sweeps where its rays are aligned.
fn end_choice(trend: Trend) -> Sweep
    ensures { result ≡ end_choice trend }
{
    match trend {
        Trend::Decreasing | Trend::Constant => Sweep::Minor,
        Trend::Increasing => Sweep::Major,
    }
}

// The cap where a chain starts.
pub fn start_cap(out: &mut [i32], at: usize, pen: Pen, s: Section, cap: Cap) -> usize
    requires unit_long { UnitLong pen.step × Around s }
    requires room { Room edge_numbers at (start_cap pen.step s cap) }
    ensures { Lays pen.step pen.folds out.old at (start_cap pen.step s cap) out.new result }
{
    match cap {
        Cap::Butt => edge(out, at, s.left.a, s.right.a),
        Cap::Round => {
            arc_about(
                out,
                at,
                pen,
                s.a,
                s.left.a,
                s.right.a,
                start_choice(s.trend),
            )
        },
    }
}

// The cap where a chain ends.
pub fn end_cap(out: &mut [i32], at: usize, pen: Pen, s: Section, cap: Cap) -> usize
    requires unit_long { UnitLong pen.step × Around s }
    requires room { Room edge_numbers at (end_cap pen.step s cap) }
    ensures { Lays pen.step pen.folds out.old at (end_cap pen.step s cap) out.new result }
{
    match cap {
        Cap::Butt => edge(out, at, s.right.b, s.left.b),
        Cap::Round => { arc_about(out, at, pen, s.b, s.right.b, s.left.b, end_choice(s.trend)) },
    }
}

// The vector of a side, from a's contact to b's.
fn along(e: Edge) -> Vector
    requires { Reach e }
    ensures { result ≡ along_of e }
{
    from_to(e.a, e.b)
}

// How the centre line bends between two sections.
pub fn bend(prev: Section, next: Section) -> i64
    requires { Around prev × Around next }
    ensures { result ≡ bend_of prev next }
{
    cross(line(prev.a, prev.b), line(next.a, next.b))
}

// Whether the left of a join turns about the vertex.
pub fn left_turns(prev: Section, next: Section) -> bool
    requires { Around prev × Around next }
    ensures { result ≡ left_turns prev next }
{
    0 < cross(along(next.left), along(prev.left)) || bend(prev, next) < 0
}

// Whether its right does.
pub fn right_turns(prev: Section, next: Section) -> bool
    requires { Around prev × Around next }
    ensures { result ≡ right_turns prev next }
{
    0 < cross(along(prev.right), along(next.right)) || 0 <= bend(prev, next)
}

// The left of a join: from the next section back to the previous one.
fn left_join(out: &mut [i32], at: usize, pen: Pen, prev: Section, next: Section) -> usize
    requires unit_long { UnitLong pen.step × Around prev × Around next × (same_centre prev next ≡ true) }
    requires room { Room edge_numbers at (left_join pen.step prev next) }
    ensures { Lays pen.step pen.folds out.old at (left_join pen.step prev next) out.new result }
{
    if left_turns(prev, next) {
        arc_about(out, at, pen, next.a, next.left.a, prev.left.b, Sweep::Minor)
    } else {
        edge(out, at, next.left.a, prev.left.b)
    }
}

// The right of a join: from the previous section to the next one.
fn right_join(out: &mut [i32], at: usize, pen: Pen, prev: Section, next: Section) -> usize
    requires unit_long { UnitLong pen.step × Around prev × Around next × (same_centre prev next ≡ true) }
    requires room { Room edge_numbers at (right_join pen.step prev next) }
    ensures { Lays pen.step pen.folds out.old at (right_join pen.step prev next) out.new result }
{
    if right_turns(prev, next) {
        arc_about(
            out,
            at,
            pen,
            prev.b,
            prev.right.b,
            next.right.a,
            Sweep::Major,
        )
    } else {
        edge(out, at, prev.right.b, next.right.a)
    }
}

// A gap: the previous section ends, and the next one starts, with a straight edge.
pub fn gap(out: &mut [i32], at: usize, pen: Pen, prev: Section, next: Section) -> usize
    requires unit_long { UnitLong pen.step × Around prev × Around next }
    requires room { Room edge_numbers at (gap_of pen.step prev next) }
    ensures { Lays pen.step pen.folds out.old at (gap_of pen.step prev next) out.new result }
{
    let n = end_cap(out, at, pen, prev, Cap::Butt);
    start_cap(out, n, pen, next, Cap::Butt)
}

// The join of two sections: about the vertex that they share, or across the gap between them.
pub fn join(out: &mut [i32], at: usize, pen: Pen, prev: Section, next: Section) -> usize
    requires unit_long { UnitLong pen.step × Around prev × Around next }
    requires room { Room edge_numbers at (join_of pen.step prev next) }
    ensures { Lays pen.step pen.folds out.old at (join_of pen.step prev next) out.new result }
{
    if centre(prev.b) == centre(next.a) {
        let n = left_join(out, at, pen, prev, next);
        right_join(out, n, pen, prev, next)
    } else {
        gap(out, at, pen, prev, next)
    }
}
