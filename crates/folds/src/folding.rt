// An arc folded into eleven numbers, where leaps count its rotations and every edge has length: so much less is held than its edges.
ghost use Rattle.std.specs.Prelude.{◌≡◌, true, [], ◌∷◌, ◌+◌, ◌^◌, ◌≤◌, ◌<◌, set, IfSome};
ghost use Rattle.whole.specs.Sizes.{Size};
ghost use Rattle.runs.specs.Runs.{Runs, Room, put as put_of};
ghost use Rattle.plane.specs.Vectors.{Near};
ghost use Rattle.plane.specs.Directions.{UnitLong};
ghost use Rattle.turning.specs.Edges.{edge_numbers};
ghost use Rattle.turning.specs.Arcs.{turns_of};
ghost use Rattle.turning.specs.Bounds.{Turns};
ghost use Rattle.folds.specs.Folds.{fold_numbers, SoundBow};
ghost use Rattle.leaps.specs.Bows.{Bends};
ghost use Rattle.folds.specs.Pens.{Lays};
ghost use Rattle.folds.specs.declared.Fold.TheVariants.{Bent};

use crate::Bow;
use leaps::counting::turned_on;
use leaps::turns::turns;
use plane::rotation::rotated;
use plane::vectors::cross;
use plane::{Point, Vector};
use turning::Turning;
use turning::edges::{narrow, put};
use turning::turn::{point_at, stops};

// What an arc in own numbers starts with.
pub const MARK: i32 = -2147483648;

// How many rotations the arc has from p, in the direction d, where that is known.
fn turned(r: Turning, d: Vector, p: Point) -> Option<usize>
    requires { Turns r × UnitLong d × Near p }
    ensures { IfSome result (Bends r d p) }
{
    let next = rotated(r.step, d);
    if stops(cross(d, r.toward), d, next, r.toward) {
        return None;
    }
    if p == point_at(r.centre, r.radius, next) {
        return None;
    }
    turned_on(r, next)
}

// A direction's component as it stands in own numbers: as `narrow` but for the bound.
fn short(z: i64) -> i32
    requires { Size (2 ^ 30) z }
    ensures { result ≡ z }
{
    z as i32
}

// A direction's two numbers, as far as the room goes.
fn put_direction(out: &mut [i32], at: usize, d: Vector)
    requires { UnitLong d × (at + 2 < 2 ^ 64) }
    ensures { out.new ≡ set (set out.old at d.x) (at + 1) d.y }
{
    put(out, at, short(d.x));
    put(out, at + 1, short(d.y));
}

// A point's.
fn put_point(out: &mut [i32], at: usize, p: Point)
    requires { Near p × (at + 2 < 2 ^ 64) }
    ensures { out.new ≡ set (set out.old at p.x) (at + 1) p.y }
{
    put(out, at, narrow(p.x));
    put(out, at + 1, narrow(p.y));
}

// An arc, as far as the room goes.
fn put_bow(out: &mut [i32], at: usize, b: Bow) -> usize
    requires { SoundBow b × (at + 11 < 2 ^ 64) }
    ensures { Runs put_of fold_numbers out.old at (Bent b ∷ []) out.new result }
{
    put(out, at, MARK);
    put(out, at + 1, b.turns as i32);
    put_direction(out, at + 2, b.direction);
    put_point(out, at + 4, b.centre);
    put(out, at + 6, narrow(b.radius));
    put_point(out, at + 7, b.from);
    put_point(out, at + 9, b.to);
    at + 11
}

// An arc whose rotations are counted and whose edges all have length, folded.
pub fn fold_counted(out: &mut [i32], at: usize, r: Turning, d: Vector, p: Point, n: usize) -> usize
    requires turns { Turns r × UnitLong d × Near p × Bends r d p n × (2 ≤ n) }
    requires room { Room edge_numbers at (turns_of 1536 r d p) }
    ensures { Lays r.step true out.old at (turns_of 1536 r d p) out.new result }
{
    let b = Bow {
        turns: n,
        direction: d,
        centre: r.centre,
        radius: r.radius,
        from: p,
        to: r.to,
    };
    put_bow(out, at, b)
}

// An arc's turning, folded where that is less.
pub fn fold(out: &mut [i32], at: usize, r: Turning, d: Vector, p: Point) -> usize
    requires turns { Turns r × UnitLong d × Near p }
    requires room { Room edge_numbers at (turns_of 1536 r d p) }
    ensures { Lays r.step true out.old at (turns_of 1536 r d p) out.new result }
{
    match turned(r, d, p) {
        Some(n) if 2 <= n => fold_counted(out, at, r, d, p, n),
        _ => turns(out, at, r, d, p),
    }
}
