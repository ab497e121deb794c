// Edges emitted into lent numbers, four an edge, at a position that travels as a value. A number is stored only inside the room, and the
// position goes on all the same: over too little room the same function counts.
ghost use Rattle.std.specs.Prelude.{◌≡◌, [], ◌∷◌, ◌+◌, ◌^◌, ◌<◌, pos, length, set, get_or};
ghost use Rattle.whole.specs.Sizes.{Size};
ghost use Rattle.runs.specs.Runs.{Runs, Room, put as put_of};
ghost use Rattle.plane.specs.Vectors.{Near};
ghost use Rattle.turning.specs.Edges.{edge_numbers, edge_of};
ghost use Rattle.turning.specs.Bounds.{Reach};

use crate::Edge;
use plane::Point;

// The number w at i, where i is inside the room; nothing past it.
pub fn put(out: &mut [i32], i: usize, w: i32)
    ensures { out.new ≡ set out.old i w }
{
    // not by `get_mut`: once its loan ends nothing is known of the numbers
    if i < out.len() {
        out[i] = w;
    }
}

// A coordinate as it stands in lent numbers.
pub fn narrow(z: i64) -> i32
    requires { Size (2 ^ 29) z }
    ensures { result ≡ z }
{
    z as i32
}

// One edge, number by number, as far as the room goes.
fn store_some(out: &mut [i32], at: usize, e: Edge) -> usize
    requires reach { Reach e }
    requires room { Room edge_numbers at (e ∷ []) }
    ensures { Runs put_of edge_numbers out.old at (e ∷ []) out.new result }
{
    put(out, at, narrow(e.a.x));
    put(out, at + 1, narrow(e.a.y));
    put(out, at + 2, narrow(e.b.x));
    put(out, at + 3, narrow(e.b.y));
    at + 4
}

// One edge, all of it inside the room.
pub fn store(out: &mut [i32], at: usize, e: Edge) -> usize
    requires reach { Reach e }
    requires room { Room edge_numbers at (e ∷ []) }
    requires inside { at + 3 < length out.old }
    ensures { Runs put_of edge_numbers out.old at (e ∷ []) out.new result }
{
    out[at] = narrow(e.a.x);
    out[at + 1] = narrow(e.a.y);
    out[at + 2] = narrow(e.b.x);
    out[at + 3] = narrow(e.b.y);
    at + 4
}

// One edge: past the room it is only counted.
fn emit(out: &mut [i32], at: usize, e: Edge) -> usize
    requires reach { Reach e }
    requires room { Room edge_numbers at (e ∷ []) }
    ensures { Runs put_of edge_numbers out.old at (e ∷ []) out.new result }
{
    if at + 4 <= out.len() {
        store(out, at, e)
    } else if out.len() <= at {
        at + 4
    } else {
        store_some(out, at, e)
    }
}

// The edge from p to q, or nothing where they are one point.
pub fn edge(out: &mut [i32], at: usize, p: Point, q: Point) -> usize
    requires near { Near p × Near q }
    requires room { Room edge_numbers at (edge_of p q) }
    ensures { Runs put_of edge_numbers out.old at (edge_of p q) out.new result }
{
    if p == q {
        at
    } else {
        emit(out, at, Edge { a: p, b: q })
    }
}

// The number at j, with more room.
pub fn number_at(own: &[i32], j: usize) -> i64
    requires { j < length own.now }
    ensures { result ≡ get_or own.now j (pos 0) }
{
    own[j] as i64
}
