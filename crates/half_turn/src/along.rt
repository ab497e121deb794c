// Arcs along a lent table of directions.
ghost use Rattle.std.specs.Prelude.{◌≡◌, not, ◌+◌, ◌*◌, ◌≤◌, ◌<◌, length};
ghost use Rattle.runs.specs.Runs.{Runs, Room, put};
ghost use Rattle.plane.specs.Vectors.{Near};
ghost use Rattle.plane.specs.Directions.{step_of};
ghost use Rattle.turning.specs.Edges.{edge_numbers};
ghost use Rattle.turning.specs.Arcs.{turns_of};
ghost use Rattle.turning.specs.Bounds.{Turns};
ghost use Rattle.leaps.specs.Leaps.{turned_of};
ghost use Rattle.leaps.specs.Bows.{bow_of};
ghost use Rattle.half_turn.specs.Pairs.{axis_of, Tabled};

use plane::{Point, Vector};
use turning::edges::{edge, store};
use turning::turn::point_at;
use turning::{Edge, Turning};

// The direction after i + 1 rotations from due east; by half a turn, from due west.
fn pair_at(pairs: &[(i32, i32)], i: usize, back: bool) -> Vector
    requires { Tabled pairs.now × (i < 402) }
    ensures { result ≡ turned_of (i + 1) (step_of 8) (axis_of back) }
{
    let (x, y) = pairs[i];
    let x = x as i64;
    let y = y as i64;
    if back {
        Vector { x: -x, y: -y }
    } else {
        Vector { x, y }
    }
}

// So many rotations of an arc, and its last edge, all inside the room.
pub fn bow_along(
    out: &mut [i32],
    at: usize,
    turns: usize,
    r: Turning,
    p: Point,
    back: bool,
    pairs: &[(i32, i32)],
) -> usize
    requires turns { Turns r × Near p × (r.step ≡ step_of 8) × (turns ≤ 402) × (at + 4 * turns + 4 ≤ length out.old) }
    requires tabled { Tabled pairs.now }
    ensures { Runs put edge_numbers out.old at (bow_of turns r (axis_of back) p) out.new result }
{
    let mut n = at;
    let mut cur = p;
    for i in 0..turns {
        let d = pair_at(pairs, i, back);
        let q = point_at(r.centre, r.radius, d);
        n = store(out, n, Edge { a: cur, b: q });
        cur = q;
    }
    store(out, n, Edge { a: cur, b: r.to })
}

// Half a circle, from due east or due west on: past the room it is only counted.
pub fn turns_along(
    out: &mut [i32],
    at: usize,
    r: Turning,
    p: Point,
    back: bool,
    pairs: &[(i32, i32)],
) -> usize
    requires turns { Turns r × Near p × (r.step ≡ step_of 8) × (r.toward ≡ axis_of (not back)) }
    requires room { Room edge_numbers at (turns_of 1536 r (axis_of back) p) }
    requires tabled { Tabled pairs.now }
    ensures { Runs put edge_numbers out.old at (turns_of 1536 r (axis_of back) p) out.new result }
{
    let mut n = at;
    let mut cur = p;
    for i in 0..402 {
        let d = pair_at(pairs, i, back);
        let q = point_at(r.centre, r.radius, d);
        n = edge(out, n, cur, q);
        cur = q;
    }
    edge(out, n, cur, r.to)
}
