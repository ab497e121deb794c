// An arc's turning where its edges are only counted: a direction that moves far enough moves its point, so the points are seldom needed.
ghost use Rattle.std.specs.Prelude.{◌≡◌, ◌+◌, ◌^◌, ◌<◌, nat_abs, length, IfSome};
ghost use Rattle.runs.specs.Runs.{Room, spread};
ghost use Rattle.plane.specs.Vectors.{same_point};
ghost use Rattle.plane.specs.Directions.{UnitLong};
ghost use Rattle.turning.specs.Edges.{edge_numbers, edge_of};
ghost use Rattle.turning.specs.Arcs.{turns_of};
ghost use Rattle.turning.specs.Bounds.{Radius, Turns};
ghost use Rattle.leaps.specs.Counts.{place_of, edge_size, Far};
ghost use Rattle.leaps.specs.Bows.{BendsOn};

use crate::landing::{hits, misses};
use crate::leaps::{ends, leapt, long, moves};
use plane::Vector;
use plane::rotation::rotated;
use plane::vectors::cross;
use turning::Turning;
use turning::turn::{MOST_ROTATIONS, point_at, stops};

// How far a component must move to move its point at the radius.
fn least(radius: i64) -> u64
    requires { Radius radius }
    ensures { Far (nat_abs radius) result }
{
    let r = radius.unsigned_abs();
    if r == 0 {
        0x1_0000_0000
    } else {
        0x4000_0000 / r + 1
    }
}

// Whether the points in two directions are one.
fn stays(r: Turning, d: Vector, e: Vector, l: u64) -> bool
    requires { Turns r × UnitLong d × UnitLong e × Far (nat_abs r.radius) l }
    ensures { result ≡ same_point (place_of r d) (place_of r e) }
{
    d.x.abs_diff(e.x) < l
        && d.y.abs_diff(e.y) < l
        && point_at(r.centre, r.radius, d) == point_at(r.centre, r.radius, e)
}

// The position past an edge, by whether its ends are one point.
fn past(at: usize, one: bool) -> usize
    requires { at + edge_size one < 2 ^ 64 }
    ensures { result ≡ at + edge_size one }
{
    if one { at } else { at + 4 }
}

// The position past the last edge, from the point in the direction d to the end.
fn past_last(at: usize, r: Turning, d: Vector) -> usize
    requires turns { Turns r × UnitLong d }
    requires room { Room edge_numbers at (edge_of (place_of r d) r.to) }
    ensures { result ≡ at + length (spread edge_numbers (edge_of (place_of r d) r.to)) }
{
    past(at, point_at(r.centre, r.radius, d) == r.to)
}

// The position past an arc that goes on from the point in the direction d, with 1,535 rotations left: rotation after rotation.
fn counted_each(at: usize, r: Turning, d: Vector) -> usize
    requires turns { Turns r × UnitLong d }
    requires room { Room edge_numbers at (turns_of 1535 r d (place_of r d)) }
    ensures { result ≡ at + length (spread edge_numbers (turns_of 1535 r d (place_of r d))) }
{
    let l = least(r.radius);
    let mut dir = d;
    let mut n = at;
    let mut z = cross(dir, r.toward);
    for _ in 1..MOST_ROTATIONS {
        let next = rotated(r.step, dir);
        if stops(z, dir, next, r.toward) {
            return past_last(n, r, dir);
        }
        n = past(n, stays(r, dir, next, l));
        z = cross(next, r.toward);
        dir = next;
    }
    past_last(n, r, dir)
}

// How many rotations an arc has, the one to the direction d and those that leaps count from there, where they tell that every edge has length.
pub fn turned_on(r: Turning, d: Vector) -> Option<usize>
    requires { Turns r × UnitLong d }
    ensures { IfSome result (λ n. (0 < n) × BendsOn r d n) }
{
    if !moves(r) {
        return None;
    }
    let s = leapt(r, d);
    if !ends(r.step, r.toward, s.direction, s.off) || !long(s.direction, s.off) {
        None
    } else if misses(r, s.direction, s.off) {
        Some(s.turns + 1)
    } else if 0 < s.turns && hits(r, s.direction, s.off) {
        Some(s.turns)
    } else {
        None
    }
}

// The position past an arc that goes on from the point in the direction d: by leaps, where they tell.
pub fn counted(at: usize, r: Turning, d: Vector) -> usize
    requires turns { Turns r × UnitLong d }
    requires room { Room edge_numbers at (turns_of 1535 r d (place_of r d)) }
    ensures { result ≡ at + length (spread edge_numbers (turns_of 1535 r d (place_of r d))) }
{
    match turned_on(r, d) {
        Some(n) => at + 4 * n,
        None => counted_each(at, r, d),
    }
}
