// keep: the outline of a path into lent bytes.
#![tactic(auto)]

ghost use Rattle.std.specs.Prelude.{◌≤◌, length};
ghost use Rattle.own_room.specs.OwnRoom.{step_numbers};
ghost use Rattle.replies.specs.Checks.{Fits};
ghost use Rattle.keeping.specs.Keeping.{plain_posts, Keeps};

use crate::filling::Plan;
use outline::Edition;
use replies::Refusal;
use replies::path_rows::check_path;

pub mod filling;
pub mod rewriting;

// The outline of a path that passed its rows, and its posts, in the second edition. A step's edges stand in `own` on their way.
pub fn keep_path(
    path: &[i32],
    posts: &[u32],
    n: usize,
    grade: u32,
    own: &mut [i32],
    out: &mut [u8],
) -> Result<usize, Refusal>
    requires { Fits path.now grade n × (step_numbers grade ≤ length own.old) }
    ensures { Keeps path.now posts.now grade out.old result out.new }
{
    let plan = Plan {
        path,
        posts,
        n,
        edition: Edition::Second,
        grade,
    };
    plan.rewrite(0, own, out)
}

// A path and its posts, with numbers of the caller's for a step's edges.
pub fn keep_posts(
    path: &[i32],
    posts: &[u32],
    grade: u32,
    own: &mut [i32],
    out: &mut [u8],
) -> Result<usize, Refusal>
    requires { step_numbers grade ≤ length own.old }
    ensures { Keeps path.now posts.now grade out.old result out.new }
{
    let n = check_path(path, grade)?;
    keep_path(path, posts, n, grade, own, out)
}

// keep with numbers of the caller's for a step's edges: every post is 0.
pub fn keep_with(
    path: &[i32],
    grade: u32,
    own: &mut [i32],
    out: &mut [u8],
) -> Result<usize, Refusal>
    requires { step_numbers grade ≤ length own.old }
    ensures { Keeps path.now (plain_posts path.now) grade out.old result out.new }
{
    keep_posts(path, &[0], grade, own, out)
}
