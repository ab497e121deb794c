// The rows past a store's header: its vertices, and whether it is sound.
ghost use Rattle.std.specs.Prelude.{◌≡◌, ◌*◌, ◌≤◌, length, take};
ghost use Rattle.runs.specs.Runs.{spread};
ghost use Rattle.paths.specs.Paths.{Within};
ghost use Rattle.contacts.specs.Limits.{first_outside};
ghost use Rattle.outline.specs.Stores.{posts_of};
ghost use Rattle.comparing.specs.Compares.{lent_path, Agrees};
ghost use Rattle.heading.specs.Shows.{lent_numbers, lent_width, shown_path};
ghost use Rattle.heading.specs.Heads.{Head};
ghost use Rattle.checking.specs.StoreChecks.{RestSays};
ghost use Rattle.checking.specs.StoreRoom.{store_path, store_own};

use comparing::Compared;
use comparing::compare::compare;
use comparing::difference::first_difference;
use heading::Header;
use heading::shows::{show_path, width};
use kerb_comparing::compare_kerb;
use outline::Form;
use paths::paths::first_outside;
use replies::Refusal;

// The first of n vertices that is outside the limits, or n.
fn first_outside_of(path: &[i32], form: Form, n: usize) -> usize
    requires { n ≡ length (lent_path form path.now) }
    ensures { result ≡ first_outside (lent_path form path.now) }
{
    match form {
        Form::Stroke(_) => first_outside(path, n),
        Form::Kerb(style) => kerb_paths::points::first_outside(path, style, n),
    }
}

// How far the store agrees with the outline of its own path.
fn compare_path(path: &[i32], s: &[u8], h: Header, own: &mut [i32]) -> Compared
    requires head { Head s.now h }
    requires within { (h.n ≡ length (lent_path h.form path.now)) × Within h.grade (lent_path h.form path.now) }
    requires own { store_own s.now ≤ length own.old }
    ensures { Agrees s.now h.form h.grade (posts_of h.form h.n s.now) (lent_path h.form path.now) result }
{
    match h.form {
        Form::Stroke(edition) => compare(path, h.n, edition, h.grade, own, s),
        Form::Kerb(style) => compare_kerb(path, h.n, h.grade, style, own, s),
    }
}

// The rows past the header, over the vertices as numbers.
fn check_shown(path: &[i32], s: &[u8], h: Header, own: &mut [i32]) -> Result<(), Refusal>
    requires head { Head s.now h }
    requires path { lent_path h.form path.now ≡ shown_path s.now }
    requires own { store_own s.now ≤ length own.old }
    ensures { RestSays s.now result }
{
    let outside = first_outside_of(path, h.form, h.n);
    if outside < h.n {
        return Err(Refusal::Outside(outside));
    }
    let compared = compare_path(path, s, h, own);
    let differing = first_difference(path, s, h.form, h.grade, h.n, compared);
    if differing < compared.end {
        return Err(Refusal::NotSound(differing));
    }
    Ok(())
}

// The rows past the header. The vertices are left in `path`.
pub fn check_rest(s: &[u8], h: Header, path: &mut [i32], own: &mut [i32]) -> Result<(), Refusal>
    requires { Head s.now h × (store_path s.now ≤ length path.old) × (store_own s.now ≤ length own.old) }
    ensures says { RestSays s.now result }
    ensures path { take (lent_width h.form * h.n) path.new ≡ spread (lent_numbers h.form) (shown_path s.now) }
{
    show_path(s, h.form, h.n, path);
    let shown = width(h.form) * h.n;
    check_shown(&path[0..shown], s, h, own)
}
