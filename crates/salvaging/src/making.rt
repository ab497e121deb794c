// What follows once header and table stand: the vertices, what differs, and the two rooms.
ghost use Rattle.std.specs.Prelude.{◌≡◌, [], ◌∷◌, ◌≤◌, length};
ghost use Rattle.paths.specs.Paths.{path_of, edges_of};
ghost use Rattle.outline.specs.Outlines.{outline_bytes};
ghost use Rattle.outline.specs.Stores.{posts_in, due_in};
ghost use Rattle.outline.specs.declared.Form.TheVariants.{Stroke};
ghost use Rattle.replies.specs.Replies.{first_row, room_row};
ghost use Rattle.heading.specs.Shows.{shown_path};
ghost use Rattle.differences.specs.Differences.{notes_from, notes_in};
ghost use Rattle.salvaging.specs.Salvaging.{list_row, past_rows, Gives};

use crate::Salvaged;
use difference_walk::differences;
use differences::fronts::Front;
use differences::noting::put_notes;
use heading::shows::show_path;
use keeping::filling::Plan;
use outline::Form;
use outline::posts::show_posts;
use paths::paths::first_outside;
use replies::Refusal;

// The outline of a path of m edges and the notes of what differs, where there is room for both.
fn salvage_found(
    plan: &Plan,
    m: usize,
    found: &[u32],
    own: &mut [i32],
    out: &mut [u8],
    list: &mut [u32],
) -> Result<Salvaged, Refusal>
    requires edges { m ≡ length (edges_of plan.now.grade (path_of plan.now.path.now)) }
    requires own_room { 36908 ≤ length own.old }
    requires few_found { length found.now ≤ 4098 }
    ensures { Gives (first_row (room_row (length (outline_bytes (Stroke plan.now.edition) plan.now.grade plan.now.posts.now (path_of plan.now.path.now))) (length out.old) (length (outline_bytes (Stroke plan.now.edition) plan.now.grade plan.now.posts.now (path_of plan.now.path.now))) ∷ list_row (length (notes_from 0 found.now)) (length list.old) ∷ []) (0, length (outline_bytes (Stroke plan.now.edition) plan.now.grade plan.now.posts.now (path_of plan.now.path.now)))) (outline_bytes (Stroke plan.now.edition) plan.now.grade plan.now.posts.now (path_of plan.now.path.now)) (notes_from 0 found.now) out.old list.old result out.new list.new }
{
    let needed = Form::Stroke(plan.edition).whole_length(plan.n, m);
    if out.len() < needed {
        return Err(Refusal::NoRoom(needed));
    }
    let words = put_notes(found, &mut []);
    if list.len() < words {
        return Err(Refusal::NoListRoom(words / 2));
    }
    put_notes(found, list);
    let bytes = plan.write(m, 0, own, out);
    Ok(Salvaged {
        bytes,
        notes: words / 2,
    })
}

// The row of the vertices, and what differs.
fn salvage_path(
    path: &[i32],
    posts: &[u32],
    front: &Front,
    own: &mut [i32],
    differing: &mut [u32],
    out: &mut [u8],
    list: &mut [u32],
) -> Result<Salvaged, Refusal>
    requires copied { (path_of path.now ≡ shown_path front.now.store.now) × (posts.now ≡ posts_in front.now.store.now) }
    requires own_room { (36908 ≤ length own.old) × (4098 ≤ length differing.old) }
    ensures { Gives (first_row (past_rows front.now.store.now (length out.old) (length list.old)) (0, length (due_in front.now.store.now))) (due_in front.now.store.now) (notes_in front.now.store.now) out.old list.old result out.new list.new }
{
    let bad = first_outside(path, front.n);
    if bad < front.n {
        return Err(Refusal::Outside(bad));
    }
    let m = differences(path, front, own, differing);
    let plan = Plan {
        path,
        posts,
        n: front.n,
        edition: front.edition,
        grade: front.grade,
    };
    salvage_found(&plan, m, &differing[..front.n + 2], own, out, list)
}

// The rows past the table. The vertices and the posts are copied first.
pub fn salvage_front(
    front: &Front,
    out: &mut [u8],
    list: &mut [u32],
    path: &mut [i32],
    posts: &mut [u32],
    own: &mut [i32],
    differing: &mut [u32],
) -> Result<Salvaged, Refusal>
    requires { (12288 ≤ length path.old) × (4096 ≤ length posts.old) × (36908 ≤ length own.old) × (4098 ≤ length differing.old) }
    ensures { Gives (first_row (past_rows front.now.store.now (length out.old) (length list.old)) (0, length (due_in front.now.store.now))) (due_in front.now.store.now) (notes_in front.now.store.now) out.old list.old result out.new list.new }
{
    show_path(front.store, Form::Stroke(front.edition), front.n, path);
    show_posts(front.store, front.edition, front.n, posts);
    salvage_path(
        &path[..3 * front.n],
        &posts[..front.n],
        front,
        own,
        differing,
        out,
        list,
    )
}
