// Reasons into lent numbers, five an edge: the reason's number, the vertex, the place, and whether its start and its end are exact.
ghost use Rattle.std.specs.Prelude.{◌≡◌, [], ◌∷◌, ◌+◌, ◌*◌, ◌^◌, ◌<◌};
ghost use Rattle.runs.specs.Runs.{Runs};
ghost use Rattle.reasons.specs.Reasons.{backward, reason_number, exactness_of, places_from};
ghost use Rattle.reasons.specs.Lists.{exact_number, why_numbers, put_past};

use crate::{Reason, Why};
use contacts::Exactness;

// A reason's number.
pub fn reason_number(reason: Reason) -> usize
    ensures { result ≡ reason_number reason }
{
    match reason {
        Reason::LeftSide(_) => 0,
        Reason::RightSide(_) => 1,
        Reason::StartCap => 2,
        Reason::EndCap => 3,
        Reason::LeftJoin => 4,
        Reason::RightJoin => 5,
        Reason::Gap => 6,
        Reason::Circle => 7,
    }
}

// The exactness that a reason tells: a side's own, and of every other edge none.
pub fn exactness(reason: Reason) -> Exactness
    ensures { result ≡ exactness_of reason }
{
    match reason {
        Reason::LeftSide(exact) | Reason::RightSide(exact) => exact,
        _ => Exactness { a: false, b: false },
    }
}

// An edge's exactness as the edge runs from b to a.
pub fn backwards(exact: Exactness) -> Exactness
    ensures { result ≡ backward exact }
{
    Exactness {
        a: exact.b,
        b: exact.a,
    }
}

// 1 if exact, else 0.
pub fn exact_number(exact: bool) -> usize
    ensures { result ≡ exact_number exact }
{
    usize::from(exact)
}

// The number w at i of a row of which the room holds the numbers from `from` on; nothing before the room and nothing past it.
fn put_past(out: &mut [usize], from: usize, i: usize, w: usize)
    ensures { out.new ≡ put_past from out.old i w }
{
    if from <= i && i - from < out.len() {
        out[i - from] = w;
    }
}

// One edge's five numbers.
fn put_why(out: &mut [usize], from: usize, at: usize, why: Why) -> usize
    requires { at + 5 < 2 ^ 64 }
    ensures { Runs (put_past from) why_numbers out.old at (why ∷ []) out.new result }
{
    put_past(out, from, at, reason_number(why.reason));
    put_past(out, from, at + 1, why.vertex);
    put_past(out, from, at + 2, why.place);
    let exact = exactness(why.reason);
    put_past(out, from, at + 3, exact_number(exact.a));
    put_past(out, from, at + 4, exact_number(exact.b));
    at + 5
}

// The edges of one rule in the body of a vertex.
pub fn label(
    out: &mut [usize],
    from: usize,
    at: usize,
    vertex: usize,
    reason: Reason,
    count: usize,
) -> usize
    requires { at + 5 * count < 2 ^ 64 }
    ensures { Runs (put_past from) why_numbers out.old at (places_from reason vertex 0 count) out.new result }
{
    let mut i = at;
    for place in 0..count {
        i = put_why(
            out,
            from,
            i,
            Why {
                reason,
                vertex,
                place,
            },
        );
    }
    i
}
