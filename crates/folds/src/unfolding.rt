// Own numbers read back: how many numbers the edges come to that they hold, and the edges themselves.
ghost use Rattle.std.specs.Prelude.{◌≡◌, [], ◌∷◌, ◌+◌, ◌*◌, ◌^◌, ◌<◌, ◌≤◌, pos, length, get_or};
ghost use Rattle.runs.specs.Runs.{Runs, put};
ghost use Rattle.plane.specs.Vectors.{Near};
ghost use Rattle.plane.specs.Directions.{UnitLong, scaled_of};
ghost use Rattle.plane.specs.Swings.{heading_of};
ghost use Rattle.turning.specs.Edges.{edge_numbers, point_numbers};
ghost use Rattle.turning.specs.Bounds.{Centre, Radius};
ghost use Rattle.leaps.specs.Bows.{bow_edges};
ghost use Rattle.folds.specs.Folds.{fold_edges, fold_numbers, size_of, point_in, direction_in, SoundBow, SoundFold, Holds, RoomFor, Stands, Finds, StandsBent, FindsBent, Sizes, Unfolds};

use crate::folding::MARK;
use crate::{Bow, Fold};
use half_turn::finest::{axial, finest};
use half_turn::half_bow;
use plane::rotation::{Swing, heading, landed, swung};
use plane::{Point, Vector};
use turning::edges::{narrow, number_at, store};
use turning::{Edge, Turning};

// The two numbers at j as a point.
fn point_in(own: &[i32], j: usize) -> Point
    requires { j + 1 < length own.now }
    ensures { result ≡ point_in own.now j }
{
    Point {
        x: number_at(own, j),
        y: number_at(own, j + 1),
    }
}

// The two numbers at j as a direction.
fn direction_in(own: &[i32], j: usize) -> Vector
    requires { j + 1 < length own.now }
    ensures { result ≡ direction_in own.now j }
{
    Vector {
        x: number_at(own, j),
        y: number_at(own, j + 1),
    }
}

// The arc that stands at j.
fn bow_in(own: &[i32], j: usize) -> Bow
    requires { StandsBent own.now j }
    ensures { FindsBent own.now j result }
{
    Bow {
        turns: own[j + 1] as usize,
        direction: direction_in(own, j + 2),
        centre: point_in(own, j + 4),
        radius: number_at(own, j + 6),
        from: point_in(own, j + 7),
        to: point_in(own, j + 9),
    }
}

// What stands at j.
fn fold_at(own: &[i32], j: usize) -> Fold
    requires { Stands own.now j }
    ensures { Finds own.now j result }
{
    if own[j] == MARK {
        Fold::Bent(bow_in(own, j))
    } else {
        Fold::Straight(Edge {
            a: point_in(own, j),
            b: point_in(own, j + 2),
        })
    }
}

// How many numbers a fold stands in.
fn width(f: Fold) -> usize
    ensures { result ≡ length (fold_numbers f) }
{
    match f {
        Fold::Straight(_) => 4,
        Fold::Bent(_) => 11,
    }
}

// How many numbers its edges come to.
fn size(f: Fold) -> usize
    requires { SoundFold f }
    ensures { result ≡ size_of f }
{
    match f {
        Fold::Straight(_) => 4,
        Fold::Bent(b) => 4 * b.turns + 4,
    }
}

// How many numbers the edges come to that the first m numbers hold.
pub fn unfolded(own: &[i32], m: usize) -> usize
    requires { Holds own.now m × (m ≤ 2 ^ 32) }
    ensures { Sizes own.now m result }
{
    let mut j: usize = 0;
    let mut n: usize = 0;
    // no range to go over: each fold has a width of its own
    while j < m {
        let f = fold_at(own, j);
        n += size(f);
        j += width(f);
    }
    n
}

// A point's two numbers, inside the room.
fn place_point(out: &mut [i32], at: usize, p: Point) -> usize
    requires { Near p × (at + 1 < length out.old) }
    ensures { Runs put point_numbers out.old at (p ∷ []) out.new result }
{
    out[at] = narrow(p.x);
    out[at + 1] = narrow(p.y);
    at + 2
}

// The point in the direction d, to which the swing s comes, at the radius from the centre.
fn point_of(c: Point, radius: i64, s: Swing, d: Vector) -> Point
    requires { Centre c × Radius radius × UnitLong d × (d ≡ heading_of s) }
    ensures { result ≡ scaled_of c radius d }
{
    let r = radius as u64;
    Point {
        x: landed(c.x, s.x, d.x, r),
        y: landed(c.y, s.y, d.y, r),
    }
}

// An arc's edges, all of them inside the room, point by point: where an edge ends the next one starts.
fn bow(out: &mut [i32], at: usize, t: Vector, b: Bow) -> usize
    requires { UnitLong t × SoundBow b × (at + 4 * b.turns + 4 ≤ length out.old) }
    ensures { Runs put edge_numbers out.old at (bow_edges b.turns t b.centre b.radius b.to b.direction b.from) out.new result }
{
    let mut s = swung(t, b.direction);
    let mut n = place_point(out, at, b.from);
    for _ in 0..b.turns {
        let d = heading(s);
        let q = point_of(b.centre, b.radius, s, d);
        n = place_point(out, n, q);
        n = place_point(out, n, q);
        s = swung(t, d);
    }
    place_point(out, n, b.to)
}

// An arc's edges, all of them inside the room: along the table, where that has the arc's directions.
fn bent(out: &mut [i32], at: usize, t: Vector, b: Bow) -> usize
    requires { UnitLong t × SoundBow b × (at + 4 * b.turns + 4 ≤ length out.old) }
    ensures { Runs put edge_numbers out.old at (bow_edges b.turns t b.centre b.radius b.to b.direction b.from) out.new result }
{
    let d = b.direction;
    if axial(d) && finest(t) && b.turns <= 402 {
        // the count says where it stops: no direction of its end is needed
        let r = Turning {
            step: t,
            centre: b.centre,
            radius: b.radius,
            to: b.to,
            toward: d,
        };
        half_bow(out, at, b.turns, r, b.from, d.x < 0)
    } else {
        bow(out, at, t, b)
    }
}

// A fold's edges, all of them inside the room.
fn unfold_one(out: &mut [i32], at: usize, t: Vector, f: Fold) -> usize
    requires { UnitLong t × SoundFold f × (at + size_of f ≤ length out.old) }
    ensures { Runs put edge_numbers out.old at (fold_edges t f) out.new result }
{
    match f {
        Fold::Straight(e) => store(out, at, e),
        Fold::Bent(b) => bent(out, at, t, b),
    }
}

// The edges that the first m numbers hold, into room that is long enough.
pub fn unfold(own: &[i32], m: usize, t: Vector, out: &mut [i32]) -> usize
    requires { UnitLong t × Holds own.now m × RoomFor t own.now m (length out.old) }
    ensures { Unfolds t own.now m out.old out.new result }
{
    let mut j: usize = 0;
    let mut n: usize = 0;
    // no range to go over: each fold has a width of its own
    while j < m {
        let f = fold_at(own, j);
        n = unfold_one(out, n, t, f);
        j += width(f);
    }
    n
}
