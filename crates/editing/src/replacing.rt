// replace: another vertex in the path of a kept outline.
ghost use Rattle.std.specs.Prelude.{◌≡◌, [], ◌∷◌, ◌+◌, ◌*◌, ◌^◌, ◌≤◌, length};
ghost use Rattle.whole.specs.Sizes.{Size};
ghost use Rattle.runs.specs.Runs.{Runs, put};
ghost use Rattle.contacts.specs.Bounds.{Inside};
ghost use Rattle.paths.specs.Paths.{vertex_numbers};
ghost use Rattle.own_room.specs.OwnRoom.{step_numbers};
ghost use Rattle.checking.specs.StoreRoom.{store_path, store_posts, store_own};
ghost use Rattle.editing.specs.Replacing.{Replaces};
ghost use Rattle.checking.specs.Known.{Known};

use checking::check;
use contacts::Vertex;
use contacts::limits::allowed;
use heading::Header;
use keeping::filling::Plan;
use outline::posts::show_posts;
use outline::{Edition, Form};
use replies::Refusal;

// A coordinate as it stands among a path's numbers. An `as` has to show at each place that the number fits; here it is shown once for the three.
fn narrow(z: i64) -> i32
    requires { Size (2 ^ 28) z }
    ensures { result ≡ z }
{
    z as i32
}

// The vertex v as the k-th of a path.
fn put_vertex(path: &mut [i32], k: usize, v: Vertex)
    requires { Inside v × (3 * k + 3 ≤ length path.old) }
    ensures { Runs put vertex_numbers path.old (3 * k) (v ∷ []) path.new (3 * k + 3) }
{
    let x = narrow(v.x);
    let y = narrow(v.y);
    let radius = narrow(v.radius);
    let at = 3 * k;
    path[at] = x;
    path[at + 1] = y;
    path[at + 2] = radius;
}

// A stroke's store that passed its rows and whose grade is drawn at, its vertices at the front of `path`: its edition stays, and every post.
// `path`, `posts` and `own` are room; how much of it a store asks for is by the store, so a struct of the three could not say that they are enough.
fn change(
    store: &mut [u8],
    h: Header,
    edition: Edition,
    index: usize,
    v: Vertex,
    path: &mut [i32],
    posts: &mut [u32],
    own: &mut [i32],
) -> Result<usize, Refusal>
    requires known { Known store.old path.old edition h.grade h.n h.m }
    requires drawn { 2 ≤ h.grade }
    requires room { (h.n ≤ length posts.old) × (step_numbers h.grade ≤ length own.old) }
    ensures { Replaces store.old index v result store.new }
{
    if h.n <= index {
        return Err(Refusal::NoVertex(index));
    }
    if !allowed(v) {
        return Err(Refusal::Outside(index));
    }
    put_vertex(path, index, v);
    show_posts(store, edition, h.n, posts);
    let numbers = 3 * h.n;
    let old = Form::Stroke(edition).whole_length(h.n, h.m);
    let plan = Plan {
        path: &path[0..numbers],
        posts: &posts[0..h.n],
        n: h.n,
        edition,
        grade: h.grade,
    };
    plan.rewrite(old, own, store)
}

// replace with numbers of the caller's: for the store's path, for its posts, and for a step's edges. A retired grade isn't drawn at.
pub fn replace_with(
    store: &mut [u8],
    index: usize,
    v: Vertex,
    path: &mut [i32],
    posts: &mut [u32],
    own: &mut [i32],
) -> Result<usize, Refusal>
    requires { (store_path store.old ≤ length path.old) × (store_posts store.old ≤ length posts.old) × (store_own store.old ≤ length own.old) }
    ensures { Replaces store.old index v result store.new }
{
    let header = check(store, path, own)?;
    let edition = header.stroke_edition()?;
    if header.grade < 2 {
        return Err(Refusal::Grade(header.grade));
    }
    change(store, header, edition, index, v, path, posts, own)
}
