// The outline of a path written into lent bytes: counted, held against its rows, filled in, with zeros up to an old end.
ghost use Rattle.std.specs.Prelude.{◌≡◌, ℕ, ◌-◌, ◌≤◌, List, length, replicate};
ghost use Rattle.contacts.specs.declared.Vertex.{Vertex};
ghost use Rattle.words.specs.Words.{four_bytes};
ghost use Rattle.outline.specs.declared.Form.{Form};
ghost use Rattle.runs.specs.Runs.{Runs, over, put};
ghost use Rattle.paths.specs.Paths.{path_of, edges_of, Within};
ghost use Rattle.own_room.specs.OwnRoom.{step_numbers};
ghost use Rattle.outline.specs.Outlines.{edges_for, outline_bytes, outline_words};
ghost use Rattle.outline.specs.declared.Form.TheVariants.{Stroke};
ghost use Rattle.keeping.specs.Rewriting.{Writes, Rewrites};

use crate::filling::Plan;
use outline::Form;
use paths::paths::walk;
use plane::direction::step;
use replies::Refusal;
use replies::path_rows::without_edges;

// Zeros from one place up to another, where that lies further on.
pub fn clear(s: &mut [u8], from: usize, to: usize)
    ensures { s.new ≡ over put s.old from (replicate (to - from) 0) }
{
    let end = to.min(s.len());
    if from < end {
        s[from..end].fill(0);
    }
}

// How many edges a path has: the walk over a few numbers of scratch counts.
pub fn count(path: &[i32], n: usize, grade: u32) -> usize
    requires { (n ≡ length (path_of path.now)) × Within grade (path_of path.now) }
    ensures { result ≡ length (edges_of grade (path_of path.now)) }
{
    let mut scratch = [0i32; 4];
    walk(path, n, step(grade), &mut scratch) / 4
}

// What an outline is made of, whatever its form: how many vertices and edges it has, and how it is filled in.
pub trait Outlined {
    ghost form_of: { Self → Form };

    ghost grade_of: { Self → ℕ };

    ghost posts_of: { Self → List ℕ };

    ghost vertices_of: { Self → List Vertex };

    // how many own numbers filling in needs
    ghost needs: { Self → ℕ };

    fn form(&self) -> Form
        ensures { result ≡ form_of self.now };

    fn vertices(&self) -> usize
        ensures { (result ≡ length (vertices_of self.now)) × (result ≤ 4096) };

    fn edges(&self) -> usize
        ensures { result ≡ length (edges_for (form_of self.now) (grade_of self.now) (vertices_of self.now)) };

    // The outline, of m edges.
    fn fill_in(&self, m: usize, own: &mut [i32], s: &mut [u8]) -> usize
        requires room { needs self.now ≤ length own.old }
        requires edges { m ≡ length (edges_for (form_of self.now) (grade_of self.now) (vertices_of self.now)) }
        ensures { Runs put four_bytes s.old 0 (outline_words (form_of self.now) (grade_of self.now) (posts_of self.now) (vertices_of self.now)) s.new result };
}

// The outline, of m edges, none too, over lent bytes that hold it and in which an old one ends at `old`.
pub fn write<O: Outlined>(
    outlined: &O,
    m: usize,
    old: usize,
    own: &mut [i32],
    s: &mut [u8],
) -> usize
    requires room { O.needs outlined.now ≤ length own.old }
    requires edges { m ≡ length (edges_for (O.form_of outlined.now) (O.grade_of outlined.now) (O.vertices_of outlined.now)) }
    requires fits { (length (outline_bytes (O.form_of outlined.now) (O.grade_of outlined.now) (O.posts_of outlined.now) (O.vertices_of outlined.now)) ≤ length s.old) × (old ≤ length s.old) }
    ensures { Writes s.old (outline_bytes (O.form_of outlined.now) (O.grade_of outlined.now) (O.posts_of outlined.now) (O.vertices_of outlined.now)) old result s.new }
{
    let end = outlined.fill_in(m, own, s);
    clear(s, end, old);
    end
}

// The outline over lent bytes in which an old one ends at `old`, where it has edges and there is room: what keep and replace share.
pub fn rewrite<O: Outlined>(
    outlined: &O,
    old: usize,
    own: &mut [i32],
    s: &mut [u8],
) -> Result<usize, Refusal>
    requires { (old ≤ length s.old) × (O.needs outlined.now ≤ length own.old) }
    ensures { Rewrites s.old (O.form_of outlined.now) (O.grade_of outlined.now) (O.posts_of outlined.now) (O.vertices_of outlined.now) old result s.new }
{
    let n = outlined.vertices();
    let m = outlined.edges();
    let needed = outlined.form().whole_length(n, m);
    let empty = without_edges(n, m);
    if empty {
        return Err(Refusal::WithoutEdges(n));
    }
    if s.len() < needed {
        return Err(Refusal::NoRoom(needed));
    }
    Ok(write(outlined, m, old, own, s))
}

impl Outlined for Plan<'_> {
    ghost form_of = { λ p. Stroke p.edition };

    ghost grade_of = { λ p. p.grade };

    ghost posts_of = { λ p. p.posts.now };

    ghost vertices_of = { λ p. path_of p.path.now };

    ghost needs = { λ p. step_numbers p.grade };

    fn form(&self) -> Form {
        Form::Stroke(self.edition)
    }

    fn vertices(&self) -> usize {
        self.n
    }

    fn edges(&self) -> usize {
        count(self.path, self.n, self.grade)
    }

    fn fill_in(&self, m: usize, own: &mut [i32], s: &mut [u8]) -> usize {
        self.outline(m, own, s)
    }
}

impl Plan<'_> {
    // The outline, of m edges, none too, over lent bytes that hold it and in which an old one ends at `old`.
    pub fn write(&self, m: usize, old: usize, own: &mut [i32], s: &mut [u8]) -> usize
        requires room { step_numbers self.now.grade ≤ length own.old }
        requires edges { m ≡ length (edges_of self.now.grade (path_of self.now.path.now)) }
        requires fits { (length (outline_bytes (Stroke self.now.edition) self.now.grade self.now.posts.now (path_of self.now.path.now)) ≤ length s.old) × (old ≤ length s.old) }
        ensures { Writes s.old (outline_bytes (Stroke self.now.edition) self.now.grade self.now.posts.now (path_of self.now.path.now)) old result s.new }
    {
        write(self, m, old, own, s)
    }

    // The outline over lent bytes in which an old one ends at `old`, where it has edges and there is room.
    pub fn rewrite(&self, old: usize, own: &mut [i32], s: &mut [u8]) -> Result<usize, Refusal>
        requires { (old ≤ length s.old) × (step_numbers self.now.grade ≤ length own.old) }
        ensures { Rewrites s.old (Stroke self.now.edition) self.now.grade self.now.posts.now (path_of self.now.path.now) old result s.new }
    {
        rewrite(self, old, own, s)
    }
}
