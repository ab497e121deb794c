// The steps after a vertex, up to the first that is drawn or broken.
ghost use Rattle.std.specs.Prelude.{◌≡◌, ◌+◌, ◌<◌, ◌≤◌, length, get_or, MatchOption};
ghost use Rattle.contacts.specs.Limits.{first_outside};
ghost use Rattle.contacts.specs.Contacts.{kind_of};
ghost use Rattle.paths.specs.Paths.{path_of, none};
ghost use Rattle.locality.specs.Local.{settles, reach_of};
ghost use Rattle.reaching.specs.Replies.{reached_of};

use contacts::Kind;
use contacts::math::kind;
use paths::paths::vertex;

// Whether a step of this kind settles what is seen after it: a drawn or a broken one does.
fn settled(kind: Kind) -> bool
    ensures { result ≡ settles kind }
{
    matches!(kind, Kind::Broken | Kind::Drawn)
}

// Whether the step from vertex i to the next is drawn or broken.
fn settled_at(path: &[i32], i: usize) -> bool
    requires { (i + 1 < length (path_of path.now)) × (first_outside (path_of path.now) ≡ length (path_of path.now)) }
    ensures { result ≡ settles (kind_of (get_or (path_of path.now) i none) (get_or (path_of path.now) (i + 1) none)) }
{
    let a = vertex(path, i);
    let b = vertex(path, i + 1);
    settled(kind(a, b))
}

// The j of vertex k, as demand 3 has it, if a vertex is so reached.
fn reach_within(path: &[i32], k: usize) -> Option<usize>
    requires { (k < length (path_of path.now)) × (first_outside (path_of path.now) ≡ length (path_of path.now)) }
    ensures { MatchOption result (length (path_of path.now) ≤ reach_of (path_of path.now) k) (λ j. (j ≡ reach_of (path_of path.now) k) × (j < length (path_of path.now))) }
{
    let n = path.len() / 3;
    for i in k + 1..n - 1 {
        if settled_at(path, i) {
            return Some(i + 1);
        }
    }
    None
}

// That vertex, or the number of vertices where there is none.
pub fn reached(path: &[i32], k: usize) -> usize
    requires { (k < length (path_of path.now)) × (first_outside (path_of path.now) ≡ length (path_of path.now)) }
    ensures { result ≡ reached_of (path_of path.now) k }
{
    reach_within(path, k).unwrap_or(path.len() / 3)
}
