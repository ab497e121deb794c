// convert: a kept outline drawn anew, in place, at the grade that the caller names.
#![tactic(auto)]

ghost use Rattle.std.specs.Prelude.{◌≡◌, ◌≤◌, length};
ghost use Rattle.outline.specs.declared.Form.TheVariants.{Stroke, Kerb};
ghost use Rattle.checking.specs.Known.{Passed};
ghost use Rattle.converting.specs.Converting.{ConvertsOutline};

use crate::redrawing::{redraw_kerb, redraw_stroke};
use checking::check;
use checking::sizes::{OWN_NUMBERS, PATH_NUMBERS, POSTS};
use heading::Header;
use keeping::filling::Plan;
use kerb::Style;
use kerb_keeping::filling::KerbPlan;
use outline::posts::show_posts;
use outline::{Edition, Form};
use replies::Refusal;

pub mod redrawing;

// A stroke's store that passed its rows, its vertices at the front of `path`: its edition stays, and every post.
fn convert_stroke(
    store: &mut [u8],
    h: Header,
    edition: Edition,
    grade: u32,
    path: &[i32],
    posts: &mut [u32],
    own: &mut [i32],
) -> Result<usize, Refusal>
    requires passed { Passed store.old path.now h × (h.form ≡ Stroke edition) }
    requires grade { (2 ≤ grade) × (grade ≤ 8) }
    requires room { (POSTS ≤ length posts.old) × (OWN_NUMBERS ≤ length own.old) }
    ensures { ConvertsOutline store.old grade result store.new }
{
    let numbers = 3 * h.n;
    show_posts(store, edition, h.n, posts);
    let old = Form::Stroke(edition).whole_length(h.n, h.m);
    let plan = Plan {
        path: &path[0..numbers],
        posts: &posts[0..h.n],
        n: h.n,
        edition,
        grade,
    };
    redraw_stroke(&plan, old, own, store)
}

// A kerb's store that passed its rows, its points at the front of `path`: its radius, join and closed stay.
fn convert_kerb(
    store: &mut [u8],
    h: Header,
    style: Style,
    grade: u32,
    path: &[i32],
    own: &mut [i32],
) -> Result<usize, Refusal>
    requires passed { Passed store.old path.now h × (h.form ≡ Kerb style) }
    requires grade { (2 ≤ grade) × (grade ≤ 8) }
    requires room { OWN_NUMBERS ≤ length own.old }
    ensures { ConvertsOutline store.old grade result store.new }
{
    let numbers = 2 * h.n;
    let old = Form::Kerb(style).whole_length(h.n, h.m);
    let plan = KerbPlan {
        points: &path[0..numbers],
        n: h.n,
        grade,
        style,
    };
    redraw_kerb(&plan, old, own, store)
}

// convert with numbers of the caller's: for the store's path, for its posts, and for a step's edges.
pub fn convert_with(
    store: &mut [u8],
    grade: u32,
    path: &mut [i32],
    posts: &mut [u32],
    own: &mut [i32],
) -> Result<usize, Refusal>
    requires { (PATH_NUMBERS ≤ length path.old) × (POSTS ≤ length posts.old) × (OWN_NUMBERS ≤ length own.old) }
    ensures { ConvertsOutline store.old grade result store.new }
{
    let header = check(store, path, own)?;
    if grade < 2 || 8 < grade {
        return Err(Refusal::Grade(grade));
    }
    match header.form {
        Form::Stroke(edition) => convert_stroke(store, header, edition, grade, path, posts, own),
        Form::Kerb(style) => convert_kerb(store, header, style, grade, path, own),
    }
}

// Redraws a sound outline in place at a grade from 2 to 8.
pub fn convert(store: &mut [u8], grade: u32) -> Result<usize, Refusal>
    ensures { ConvertsOutline store.old grade result store.new }
{
    let mut path = [0i32; PATH_NUMBERS];
    let mut posts = [0u32; POSTS];
    let mut own = [0i32; OWN_NUMBERS];
    convert_with(store, grade, &mut path, &mut posts, &mut own)
}
