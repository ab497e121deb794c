// An arc of any kind, counterclockwise about a centre.
ghost use Rattle.std.specs.Prelude.{◌++◌};
ghost use Rattle.runs.specs.Runs.{Room};
ghost use Rattle.plane.specs.Vectors.{from_to};
ghost use Rattle.plane.specs.Directions.{UnitLong};
ghost use Rattle.turning.specs.Edges.{edge_numbers, edge_of};
ghost use Rattle.turning.specs.Arcs.{ring_of, circle_of, arc_of};
ghost use Rattle.turning.specs.Bounds.{Centre, About};
ghost use Rattle.folds.specs.Pens.{Lays};

use crate::circle::circle;
use folds::Pen;
use folds::folding::fold;
use leaps::turns::turns;
use number::guess::near_root;
use number::root::root;
use plane::Point;
use plane::direction::{direction, measured, rounded};
use plane::rotation::rotated;
use plane::vectors::{cross, from_to, square};
use turning::edges::edge;
use turning::kinds::{empty, full, sweep};
use turning::turn::stops;
use turning::{Sweep, Turning};

// A full arc: the circle through p, rounded inwards, then the straight edge.
fn ring(out: &mut [i32], at: usize, pen: Pen, c: Point, p: Point, q: Point) -> usize
    requires unit_long { UnitLong pen.step × Centre c × About c p × About c q }
    requires room { Room edge_numbers at (circle_of pen.step c (ring_of (from_to c p)) ++ edge_of p q) }
    ensures { Lays pen.step pen.folds out.old at (circle_of pen.step c (ring_of (from_to c p)) ++ edge_of p q) out.new result }
{
    let s = square(from_to(c, p));
    let radius = root(s, near_root(s)) as i64;
    let n = circle(out, at, pen, c, radius);
    edge(out, n, p, q)
}

// The arc from p to q about c by steps of the pen, its inner points as far out as p; the caller chooses how far it turns where the rays are aligned.
pub fn arc(
    out: &mut [i32],
    at: usize,
    pen: Pen,
    c: Point,
    p: Point,
    q: Point,
    choice: Sweep,
) -> usize
    requires unit_long { UnitLong pen.step × Centre c × About c p × About c q }
    requires room { Room edge_numbers at (arc_of pen.step c (ring_of (from_to c p)) p q choice) }
    ensures { Lays pen.step pen.folds out.old at (arc_of pen.step c (ring_of (from_to c p)) p q choice) out.new result }
{
    let m = from_to(c, p);
    let n = from_to(c, q);
    let w = sweep(m, n, choice);
    if empty(w, c, p, q) {
        return at;
    }
    // both lengths first: neither waits for the other
    let k = measured(m);
    let l = measured(n);
    let d = direction(m, k);
    let e = direction(n, l);
    if full(w, d, e) {
        return ring(out, at, pen, c, p, q);
    }
    // a join that bends by less than a step has no inner point, and needs no root
    let next = rotated(pen.step, d);
    if stops(cross(d, e), d, next, e) {
        return edge(out, at, p, q);
    }
    let radius = rounded(k) as i64;
    let r = Turning {
        step: pen.step,
        centre: c,
        radius,
        to: q,
        toward: e,
    };
    if pen.folds {
        fold(out, at, r, d, p)
    } else {
        turns(out, at, r, d, p)
    }
}
