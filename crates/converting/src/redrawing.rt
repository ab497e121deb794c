// An outline drawn anew over the bytes of an old one: counted, held against the room, filled in, with zeros up to the old end; one without edges too.
ghost use Rattle.std.specs.Prelude.{[], ◌≤◌, length};
ghost use Rattle.paths.specs.Paths.{path_of};
ghost use Rattle.kerb_paths.specs.Points.{kerb_path};
ghost use Rattle.outline.specs.declared.Form.TheVariants.{Stroke, Kerb};
ghost use Rattle.converting.specs.Converting.{Redraws};

use checking::sizes::OWN_NUMBERS;
use keeping::filling::Plan;
use keeping::rewriting::count;
use kerb_keeping::filling::KerbPlan;
use outline::Form;
use replies::Refusal;

// The outline of a stroke's path and posts, over lent bytes in which an old one ends at `old`.
pub fn redraw_stroke(
    plan: &Plan,
    old: usize,
    own: &mut [i32],
    s: &mut [u8],
) -> Result<usize, Refusal>
    requires { (OWN_NUMBERS ≤ length own.old) × (old ≤ length s.old) }
    ensures { Redraws s.old (Stroke plan.now.edition) plan.now.grade plan.now.posts.now (path_of plan.now.path.now) old result s.new }
{
    let m = count(plan.path, plan.n, plan.grade);
    let needed = Form::Stroke(plan.edition).whole_length(plan.n, m);
    if s.len() < needed {
        return Err(Refusal::NoRoom(needed));
    }
    Ok(plan.write(m, old, own, s))
}

// The outline of a kerb, the same way: its plan counts and writes by the tour, a stroke's by the path, so one function would take both as closures.
pub fn redraw_kerb(
    plan: &KerbPlan,
    old: usize,
    own: &mut [i32],
    s: &mut [u8],
) -> Result<usize, Refusal>
    requires { (OWN_NUMBERS ≤ length own.old) × (old ≤ length s.old) }
    ensures { Redraws s.old (Kerb plan.now.style) plan.now.grade [] (kerb_path plan.now.style.radius plan.now.points.now) old result s.new }
{
    let m = plan.count();
    let needed = Form::Kerb(plan.style).whole_length(plan.n, m);
    if s.len() < needed {
        return Err(Refusal::NoRoom(needed));
    }
    Ok(plan.write(m, old, own, s))
}
