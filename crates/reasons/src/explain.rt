// Why one edge of a path is there.
ghost use Rattle.std.specs.Prelude.{◌≡◌, length};
ghost use Rattle.paths.specs.Paths.{path_of, Within};
ghost use Rattle.reasons.specs.Reasons.{whys_of};
ghost use Rattle.reasons.specs.Lists.{reason_of, explanation_of};

use crate::listing::list_path;
use crate::{Reason, Why};
use contacts::Exactness;

// The reason that has a number; a side has this exactness.
fn named(n: usize, exact: Exactness) -> Reason
    ensures { result ≡ reason_of n exact }
{
    match n {
        0 => Reason::LeftSide(exact),
        1 => Reason::RightSide(exact),
        2 => Reason::StartCap,
        3 => Reason::EndCap,
        4 => Reason::LeftJoin,
        5 => Reason::RightJoin,
        6 => Reason::Gap,
        _ => Reason::Circle,
    }
}

// Why an edge of a path is there; `one` is room for its five numbers.
pub fn explain_path(
    path: &[i32],
    n: usize,
    grade: u32,
    edge: usize,
    one: &mut [usize],
) -> Option<Why>
    requires { (n ≡ length (path_of path.now)) × Within grade (path_of path.now) × (length one.old ≡ 5) }
    ensures { result ≡ explanation_of (whys_of grade (path_of path.now)) edge }
{
    if 0x1_0000_0000 <= edge {
        return None;
    }
    let from = 5 * edge;
    if list_path(path, n, grade, from, one) <= from {
        return None;
    }
    let exact = Exactness {
        a: one[3] == 1,
        b: one[4] == 1,
    };
    Some(Why {
        reason: named(one[0], exact),
        vertex: one[1],
        place: one[2],
    })
}
