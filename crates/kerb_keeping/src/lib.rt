// keep of a kerb: its outline into lent bytes.
#![tactic(auto)]

ghost use Rattle.std.specs.Prelude.{◌≤◌, length};
ghost use Rattle.kerb_outline.specs.Remaining.{piece_numbers};
ghost use Rattle.kerb_keeping.specs.KerbKeeping.{KeepsKerb};

use crate::filling::KerbPlan;
use kerb_rows::LentKerb;
use replies::Refusal;

pub mod filling;
pub mod writing;

// keep of a kerb with numbers of the caller's for a piece's edges.
pub fn keep_kerb_with(
    points: &[i32],
    grade: u32,
    radius: u32,
    join: u32,
    closed: u32,
    own: &mut [i32],
    out: &mut [u8],
) -> Result<usize, Refusal>
    requires { piece_numbers ≤ length own.old }
    ensures { KeepsKerb points.now grade radius join closed out.old result out.new }
{
    let kerb = LentKerb {
        points,
        grade,
        radius,
        join,
        closed,
    };
    let n = kerb.check()?;
    let plan = KerbPlan {
        points,
        n,
        grade,
        style: kerb.style(),
    };
    plan.rewrite(0, own, out)
}
