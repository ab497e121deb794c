// Why each edge of a path is there, body by body as the walk goes: each rule is counted, and its edges are named by it.
ghost use Rattle.std.specs.Prelude.{◌≡◌, ◌*◌, ◌<◌, length, drop};
ghost use Rattle.runs.specs.Runs.{Runs, Room, spread, over, put};
ghost use Rattle.plane.specs.Directions.{UnitLong};
ghost use Rattle.contacts.specs.Bounds.{Inside, Around};
ghost use Rattle.contacts.specs.Contacts.{kind_of};
ghost use Rattle.contacts.specs.Limits.{first_outside};
ghost use Rattle.contacts.specs.declared.Kind.TheVariants.{Drawn};
ghost use Rattle.variable_stroke.specs.Bounds.{AroundChain, AroundWalk};
ghost use Rattle.variable_stroke.specs.Chains.{leave_chain, emitted_of};
ghost use Rattle.paths.specs.Paths.{path_of, Within};
ghost use Rattle.reasons.specs.Reasons.{finish_pieces, join_pieces, meet_pieces, drawn_pieces, leave_pieces, pieces_of, pieces_at, body_whys, whys_from, whys_of};
ghost use Rattle.reasons.specs.Lists.{why_numbers, put_past};

use crate::Reason;
use crate::counts::{across, end_reason, finish, left, right, side, start, step as counted};
use crate::labels::{backwards, label};
use contacts::math::{centre, kind};
use contacts::sections::{covered, section};
use contacts::{Kind, Section, Vertex};
use joins::Cap;
use paths::paths::vertex;
use plane::Vector;
use plane::direction::step;
use variable_stroke::{Chain, Walk};

// What ends a chain.
fn finish_whys(
    out: &mut [usize],
    from: usize,
    at: usize,
    v: usize,
    t: Vector,
    chain: Chain,
    cap: Cap,
) -> usize
    requires unit_long { UnitLong t × AroundChain chain }
    requires room { Room why_numbers at (body_whys v (finish_pieces t chain.last chain cap)) }
    ensures { Runs (put_past from) why_numbers out.old at (body_whys v (finish_pieces t chain.last chain cap)) out.new result }
{
    let n = finish(t, chain, cap);
    label(out, from, at, v, end_reason(chain.last), n)
}

// A join, left and then right, or the closing of a gap.
fn join_whys(
    out: &mut [usize],
    from: usize,
    at: usize,
    v: usize,
    t: Vector,
    prev: Section,
    next: Section,
) -> usize
    requires unit_long { UnitLong t × Around prev × Around next }
    requires room { Room why_numbers at (body_whys v (join_pieces t prev next)) }
    ensures { Runs (put_past from) why_numbers out.old at (body_whys v (join_pieces t prev next)) out.new result }
{
    if centre(prev.b) == centre(next.a) {
        let n = left(t, prev, next);
        let i = label(out, from, at, v, Reason::LeftJoin, n);
        let m = right(t, prev, next);
        label(out, from, i, v, Reason::RightJoin, m)
    } else {
        let n = across(t, prev, next);
        label(out, from, at, v, Reason::Gap, n)
    }
}

// A join to the last section, or the start cap.
fn meet_whys(
    out: &mut [usize],
    from: usize,
    at: usize,
    v: usize,
    t: Vector,
    chain: Chain,
    s: Section,
) -> usize
    requires unit_long { UnitLong t × AroundChain chain × Around s }
    requires room { Room why_numbers at (body_whys v (meet_pieces t chain.last chain.cap s)) }
    ensures { Runs (put_past from) why_numbers out.old at (body_whys v (meet_pieces t chain.last chain.cap s)) out.new result }
{
    match chain.last {
        Some(prev) => join_whys(out, from, at, v, t, prev, s),
        None => {
            let n = start(t, s, chain.cap);
            label(out, from, at, v, Reason::StartCap, n)
        },
    }
}

// Both sides of a section, then what it meets.
fn drawn_whys(
    out: &mut [usize],
    from: usize,
    at: usize,
    v: usize,
    t: Vector,
    chain: Chain,
    s: Section,
) -> usize
    requires unit_long { UnitLong t × AroundChain chain × Around s }
    requires room { Room why_numbers at (body_whys v (drawn_pieces t chain s)) }
    ensures { Runs (put_past from) why_numbers out.old at (body_whys v (drawn_pieces t chain s)) out.new result }
{
    let n = side(s.left.b, s.left.a);
    let i = label(
        out,
        from,
        at,
        v,
        Reason::LeftSide(backwards(s.exact.left)),
        n,
    );
    let m = side(s.right.a, s.right.b);
    let j = label(out, from, i, v, Reason::RightSide(s.exact.right), m);
    meet_whys(out, from, j, v, t, chain, s)
}

// What ends the chain where b is covered.
fn leave_whys(
    out: &mut [usize],
    from: usize,
    at: usize,
    v: usize,
    t: Vector,
    w: Walk,
    b: Vertex,
) -> usize
    requires unit_long { UnitLong t × AroundWalk w × Inside b }
    requires room { Room why_numbers at (body_whys v (leave_pieces t w b)) }
    ensures { Runs (put_past from) why_numbers out.old at (body_whys v (leave_pieces t w b)) out.new result }
{
    if covered(w.previous, b) {
        finish_whys(out, from, at, v, t, w.chain, Cap::Round)
    } else {
        at
    }
}

// The chain that goes on: one started anew where b is covered.
fn left_chain(w: Walk, b: Vertex) -> Chain
    requires { AroundWalk w × Inside b }
    ensures { result ≡ leave_chain w b }
{
    if covered(w.previous, b) {
        Chain::new(w.at, Cap::Butt)
    } else {
        w.chain
    }
}

// A drawn step.
fn section_whys(
    out: &mut [usize],
    from: usize,
    at: usize,
    v: usize,
    t: Vector,
    w: Walk,
    b: Vertex,
) -> usize
    requires unit_long { UnitLong t × AroundWalk w × Inside b × (kind_of w.at b ≡ Drawn) }
    requires room { Room why_numbers at (body_whys v (pieces_of t w b)) }
    ensures { Runs (put_past from) why_numbers out.old at (body_whys v (pieces_of t w b)) out.new result }
{
    let i = leave_whys(out, from, at, v, t, w, b);
    drawn_whys(out, from, i, v, t, left_chain(w, b), section(w.at, b))
}

// The step to b, which emits so many edges.
fn step_whys(
    out: &mut [usize],
    from: usize,
    at: usize,
    v: usize,
    t: Vector,
    w: Walk,
    b: Vertex,
    count: usize,
) -> usize
    requires unit_long { UnitLong t × AroundWalk w × Inside b × (count ≡ length (emitted_of t w b)) }
    requires room { Room why_numbers at (body_whys v (pieces_of t w b)) }
    ensures { Runs (put_past from) why_numbers out.old at (body_whys v (pieces_of t w b)) out.new result }
{
    match kind(w.at, b) {
        Kind::Broken => label(out, from, at, v, end_reason(w.chain.last), count),
        Kind::Drawn => section_whys(out, from, at, v, t, w, b),
        Kind::Thin => leave_whys(out, from, at, v, t, w, b),
    }
}

// Every body from the first vertex on, and the closing body.
fn go_whys(path: &[i32], n: usize, t: Vector, from: usize, out: &mut [usize]) -> usize
    requires within { (n ≡ length (path_of path.now)) × (first_outside (path_of path.now) ≡ length (path_of path.now)) × UnitLong t × (0 < n) }
    requires room { Room why_numbers 0 (whys_from 0 (pieces_at t (path_of path.now))) }
    ensures { Runs (put_past from) why_numbers out.old 0 (whys_from 0 (pieces_at t (path_of path.now))) out.new result }
{
    let mut w = Walk::new(vertex(path, 0));
    let mut at: usize = 0;
    for k in 1..n {
        let b = vertex(path, k);
        let s = counted(t, w, b);
        at = step_whys(out, from, at, k, t, w, b, s.count);
        w = s.walk;
    }
    finish_whys(out, from, at, n, t, w.chain, w.closing)
}

// Why the edges of a path are there, five numbers an edge, from the number at `from` on, as many as the room holds; handed back is how many numbers there are.
pub fn list_path(path: &[i32], n: usize, grade: u32, from: usize, out: &mut [usize]) -> usize
    requires { (n ≡ length (path_of path.now)) × Within grade (path_of path.now) }
    ensures told { out.new ≡ over put out.old 0 (drop from (spread why_numbers (whys_of grade (path_of path.now)))) }
    ensures count { result ≡ 5 * length (whys_of grade (path_of path.now)) }
{
    if n == 0 {
        0
    } else {
        go_whys(path, n, step(grade), from, out)
    }
}
