// The rows that calls share: is this a path, at a grade, within the limits, and has it edges?
ghost use Rattle.std.specs.Prelude.{◌≡◌};
ghost use Rattle.replies.specs.Replies.{empty_row};
ghost use Rattle.replies.specs.Checks.{PathSays};

use crate::Refusal;
use paths::paths::first_outside;

// Every row of a path, in order: how many vertices it has, or why it is refused.
pub fn check_path(path: &[i32], grade: u32) -> Result<usize, Refusal>
    ensures { PathSays path.now grade result }
{
    let m = path.len();
    if m % 3 != 0 {
        return Err(Refusal::Uneven(m));
    }
    if grade < 2 {
        return Err(Refusal::Grade(grade));
    }
    if 8 < grade {
        return Err(Refusal::Grade(grade));
    }
    let n = m / 3;
    if 4096 < n {
        return Err(Refusal::TooMany(n));
    }
    let bad = first_outside(path, n);
    if bad < n {
        return Err(Refusal::Outside(bad));
    }
    Ok(n)
}

// Whether a path of n vertices and m edges is one of vertices without edges: document 02, request 9.
pub fn without_edges(n: usize, m: usize) -> bool
    ensures { result ≡ (empty_row n m).0 }
{
    0 < n && m == 0
}
