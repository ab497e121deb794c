// The bodies of a store compared in one walk with those that its own vertices give: document 02, request 14.
#![tactic(auto)]

ghost use Rattle.std.specs.Prelude.{◌≡◌, ◌+◌, ◌*◌, ◌^◌, ◌≤◌, ◌<◌, length, drop};
ghost use Rattle.runs.specs.Runs.{Runs, put};
ghost use Rattle.plane.specs.Directions.{UnitLong};
ghost use Rattle.contacts.specs.Limits.{first_outside};
ghost use Rattle.contacts.specs.Bounds.{Inside};
ghost use Rattle.variable_stroke.specs.Chains.{emitted_of, next_of, close_of};
ghost use Rattle.variable_stroke.specs.Bounds.{AroundWalk};
ghost use Rattle.paths.specs.Paths.{path_of, bodies_from, bodies_of, joined, edges_of, Within};
ghost use Rattle.differences.specs.Differences.{old_at, differences_from, differences_of};
ghost use Rattle.differences.specs.Bodies.{single, BodyTold};

use contacts::Vertex;
use differences::bodies::{Differing, difference, total_number};
use differences::fronts::Front;
use outline::layout::EDGE;
use paths::paths::vertex;
use plane::Vector;
use plane::direction::step;
use variable_stroke::Walk;
use words::word_at;

// A step to v: the edges emitted on the way stand in `own` while they are compared.
fn told_step(d: Differing, t: Vector, v: Vertex, old: u32, own: &mut [i32], s: &[u8]) -> Differing
    requires unit_long { UnitLong t }
    requires around { AroundWalk d.walk × Inside v }
    requires own_room { 36908 ≤ length own.old }
    requires no_wrap { (d.at + 68719476736 < 2 ^ 64) × (d.edges + 9227 < 2 ^ 64) }
    ensures { BodyTold s.now d (next_of d.walk v) old (emitted_of t d.walk v) result }
{
    let walked = d.walk.step(own, 0, t, v);
    d.told(walked.walk, walked.at / 4, old, own, s)
}

// The closing body.
fn told_end(d: Differing, t: Vector, old: u32, own: &mut [i32], s: &[u8]) -> Differing
    requires unit_long { UnitLong t }
    requires around { AroundWalk d.walk }
    requires own_room { 36908 ≤ length own.old }
    requires no_wrap { (d.at + 68719476736 < 2 ^ 64) × (d.edges + 9227 < 2 ^ 64) }
    ensures { BodyTold s.now d d.walk old (close_of t d.walk) result }
{
    let numbers = d.walk.close(own, 0, t);
    d.told(d.walk, numbers / 4, old, own, s)
}

// Every step from the second vertex on, and the closing body.
fn differ_from(
    path: &[i32],
    front: &Front,
    t: Vector,
    start: Differing,
    own: &mut [i32],
    differing: &mut [u32],
) -> usize
    requires vertices { (front.now.n ≡ length (path_of path.now)) × (0 < front.now.n) × (first_outside (path_of path.now) ≡ length (path_of path.now)) }
    requires unit_long { UnitLong t }
    requires around { AroundWalk start.walk }
    requires own_room { (36908 ≤ length own.old) × (front.now.n < length differing.old) }
    requires first_body { (start.at ≡ old_at front.now.store.now 1) × (start.at ≤ 68719558664) × (start.edges ≡ 0) }
    requires few_edges { length (joined (bodies_from t start.walk (drop 1 (path_of path.now)))) < 2 ^ 32 }
    ensures due { result ≡ length (joined (bodies_from t start.walk (drop 1 (path_of path.now)))) }
    ensures found { Runs put single differing.old 1 (differences_from front.now.store.now 1 (bodies_from t start.walk (drop 1 (path_of path.now)))) differing.new (front.now.n + 1) }
{
    let mut d = start;
    for k in 1..front.n {
        let v = vertex(path, k);
        let old = front.old_count(k);
        d = told_step(d, t, v, old, own, front.store);
        differing[k] = d.what;
    }
    let last = front.old_count(front.n);
    let end = told_end(d, t, last, own, front.store);
    differing[front.n] = end.what;
    end.edges
}

// All bodies: what differs in each, and how many edges are due.
fn differ_bodies(path: &[i32], front: &Front, own: &mut [i32], differing: &mut [u32]) -> usize
    requires { (front.now.n ≡ length (path_of path.now)) × Within front.now.grade (path_of path.now) × (36908 ≤ length own.old) × (front.now.n < length differing.old) }
    ensures due { result ≡ length (edges_of front.now.grade (path_of path.now)) }
    ensures found { Runs put single differing.old 0 (differences_from front.now.store.now 0 (bodies_of front.now.grade (path_of path.now))) differing.new (front.now.n + 1) }
{
    let base = front.table_end();
    let old = front.old_count(0);
    let count = old as usize;
    let first = difference(own, 0, count, front.store, base);
    differing[0] = first;
    if front.n == 0 {
        return 0;
    }
    let walk = Walk::new(vertex(path, 0));
    let at = base + EDGE * count;
    let start = Differing {
        walk,
        at,
        edges: 0,
        what: first,
    };
    differ_from(path, front, step(front.grade), start, own, differing)
}

// What differs in each body and in the header's total, and how many edges are due.
pub fn differences(path: &[i32], front: &Front, own: &mut [i32], differing: &mut [u32]) -> usize
    requires { (front.now.n ≡ length (path_of path.now)) × Within front.now.grade (path_of path.now) × (36908 ≤ length own.old) × (front.now.n + 1 < length differing.old) }
    ensures due { result ≡ length (edges_of front.now.grade (path_of path.now)) }
    ensures found { Runs put single differing.old 0 (differences_of front.now.store.now front.now.grade (path_of path.now)) differing.new (front.now.n + 2) }
{
    let due = differ_bodies(path, front, own, differing);
    let old = word_at(front.store, 4) as usize;
    differing[front.n + 1] = total_number(old, due);
    due
}
