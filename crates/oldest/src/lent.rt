// A pass over lent numbers, three a vertex, which import and export are.
ghost use Rattle.std.specs.Prelude.{◌≡◌, ◌+◌, ◌%◌, ◌≤◌, length, take, drop};
ghost use Rattle.std.proofs.Math.Option.{Option};
ghost use Rattle.replies.specs.Refusals.{reply_of};
ghost use Rattle.oldest.specs.Calls.{in_threes};
ghost use Rattle.oldest.specs.Converts.{Goes, Passes};

use replies::Refusal;

// A number that may stand for another one: a coordinate by one rule, and a width or radius by another.
pub trait Lent: Copy {
    type Other: Copy;

    ghost coordinate: { Self → Option Self.Other };

    ghost width: { Self → Option Self.Other };

    // The vertex at a place; or the place of its first number not taken.
    fn vertex(numbers: &[Self], at: usize, out: &mut [Self::Other]) -> Result<(), usize>
        requires { (at + 3 ≤ length numbers.now) × (length numbers.now ≤ 12288) }
        ensures { Goes (in_threes coordinate width (take 3 (drop at numbers.now))) at out.old result out.new };
}

// Vertex after vertex; or the place of the first number not taken. What does not fit the room is left out, so a walk over no room only looks.
fn pass_all<N: Lent>(numbers: &[N], out: &mut [N::Other]) -> Result<(), usize>
    requires { (length numbers.now % 3 ≡ 0) × (length numbers.now ≤ 12288) }
    ensures { Goes (in_threes N.coordinate N.width numbers.now) 0 out.old result out.new }
{
    for k in 0..numbers.len() / 3 {
        N::vertex(numbers, 3 * k, out)?;
    }
    Ok(())
}

// How many vertices passed, or why none.
pub fn pass<N: Lent>(numbers: &[N], out: &mut [N::Other]) -> Result<usize, Refusal>
    ensures { Passes N.coordinate N.width numbers.now out.old (reply_of result) out.new }
{
    let m = numbers.len();
    if m % 3 != 0 {
        return Err(Refusal::Uneven(m));
    }
    let n = m / 3;
    if 4096 < n {
        return Err(Refusal::TooMany(n));
    }
    if let Err(place) = pass_all(numbers, &mut []) {
        return Err(Refusal::NotTaken(place));
    }
    if out.len() < m {
        return Err(Refusal::NoRoom(n));
    }
    let _ = pass_all(numbers, out);
    Ok(n)
}
