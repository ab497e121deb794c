// An outline filled in: the table and the bodies in one walk over lent triples, with the posts beside them.
ghost use Rattle.std.specs.Prelude.{◌≡◌, [], ◌∷◌, ◌+◌, ◌^◌, ◌≤◌, ◌<◌, length, get_or, drop};
ghost use Rattle.runs.specs.Runs.{Runs, Room, put};
ghost use Rattle.plane.specs.Directions.{UnitLong};
ghost use Rattle.variable_stroke.specs.Chains.{emitted_of, close_of};
ghost use Rattle.paths.specs.Paths.{path_of, bodies_of, edges_of, Within};
ghost use Rattle.contacts.specs.Bounds.{Inside};
ghost use Rattle.variable_stroke.specs.Bounds.{AroundWalk};
ghost use Rattle.own_room.specs.OwnRoom.{step_numbers, StepRoom};
ghost use Rattle.outline.specs.Layout.{header_bytes, front_bytes};
ghost use Rattle.words.specs.Words.{four_bytes};
ghost use Rattle.outline.specs.Outlines.{header_of, post_words, entry_of, table_of, body_words, outline_words};
ghost use Rattle.outline.specs.Parts.{table_from, words_from};
ghost use Rattle.outline.specs.declared.Form.TheVariants.{Stroke};
ghost use Rattle.keeping.specs.Fills.{Apart, Both, StepFills};

use contacts::Vertex;
use outline::layout::{HEADER, STROKE_KIND};
use outline::{Edition, Form};
use paths::paths::vertex;
use plane::Vector;
use plane::direction::step;
use variable_stroke::Walk;
use words::numbers::put_numbers;
use words::{put_word, wide_bits};

// Where filling stands: the walk, and where the table and the bodies go on.
#[derive(Clone, Copy)]
pub struct Filling {
    pub walk: Walk,
    pub table: usize,
    pub bodies: usize,
}

// What an outline is made of: a path of n vertices within the limits of a grade, the posts beside them, and the edition.
#[derive(Clone, Copy)]
pub struct Plan<'a> {
    pub path: &'a [i32],
    pub posts: &'a [u32],
    pub n: usize,
    pub edition: Edition,
    pub grade: u32,
    ghost counted: { n ≡ length (path_of path.now) },
    ghost within: { Within grade (path_of path.now) },
}

// A post, where the edition has one.
fn put_post(s: &mut [u8], at: usize, edition: Edition, post: u32) -> usize
    requires { at + 4 < 2 ^ 64 }
    ensures { Runs put four_bytes s.old at (post_words edition post) s.new result }
{
    match edition {
        Edition::First => at,
        Edition::Second => put_word(s, at, post),
    }
}

// A vertex, its post and the number of edges emitted on reaching it.
fn put_entry(s: &mut [u8], at: usize, edition: Edition, v: Vertex, post: u32, count: u32) -> usize
    requires inside { Inside v }
    requires room { Room four_bytes at (entry_of edition v post count) }
    ensures { Runs put four_bytes s.old at (entry_of edition v post count) s.new result }
{
    let a = put_word(s, at, wide_bits(v.x));
    let b = put_word(s, a, wide_bits(v.y));
    let c = put_word(s, b, wide_bits(v.radius));
    let d = put_post(s, c, edition, post);
    put_word(s, d, count)
}

// The header.
fn put_header(s: &mut [u8], edition: Edition, grade: u32, n: u32, m: u32) -> usize
    ensures { Runs put four_bytes s.old 0 (header_of (Stroke edition) grade n m) s.new result }
{
    let a = put_word(s, 0, u32::from(edition));
    let b = put_word(s, a, STROKE_KIND);
    let c = put_word(s, b, grade);
    let d = put_word(s, c, n);
    put_word(s, d, m)
}

// A step to b: its entry and its body, whose edges stand in `own` on their way.
fn fill_step(
    f: Filling,
    edition: Edition,
    t: Vector,
    b: Vertex,
    post: u32,
    own: &mut [i32],
    s: &mut [u8],
) -> Filling
    requires sound { UnitLong t × AroundWalk f.walk × Inside b × StepRoom t (length own.old) }
    requires apart { Apart f.table (entry_of edition b post (length (emitted_of t f.walk b))) f.bodies (body_words (emitted_of t f.walk b)) }
    ensures { StepFills edition t s.old f b post s.new result }
{
    let walked = f.walk.step(own, 0, t, b);
    let table = put_entry(s, f.table, edition, b, post, (walked.at / 4) as u32);
    let bodies = put_numbers(own, walked.at, s, f.bodies);
    Filling {
        walk: walked.walk,
        table,
        bodies,
    }
}

// The number of closing edges, and the closing body.
fn fill_end(f: Filling, t: Vector, own: &mut [i32], s: &mut [u8]) -> usize
    requires sound { UnitLong t × AroundWalk f.walk × StepRoom t (length own.old) }
    requires apart { Apart f.table (length (close_of t f.walk) ∷ []) f.bodies (body_words (close_of t f.walk)) }
    ensures { Both s.old f.table (length (close_of t f.walk) ∷ []) f.bodies (body_words (close_of t f.walk)) s.new result }
{
    let n = f.walk.close(own, 0, t);
    put_word(s, f.table, (n / 4) as u32);
    put_numbers(own, n, s, f.bodies)
}

impl Plan<'_> {
    // The k-th of the posts; one that is missing is 0.
    fn post(&self, k: usize) -> u32
        ensures { result ≡ get_or self.now.posts.now k 0 }
    {
        self.posts.get(k).copied().unwrap_or(0)
    }

    // Every step from the second vertex on, and the end.
    fn fill_from(&self, t: Vector, start: Filling, own: &mut [i32], s: &mut [u8]) -> usize
        requires some { 0 < self.now.n }
        requires sound { UnitLong t × AroundWalk start.walk × StepRoom t (length own.old) }
        requires apart { Apart start.table (table_from self.now.edition t start.walk (drop 1 self.now.posts.now) (drop 1 (path_of self.now.path.now))) start.bodies (words_from t start.walk (drop 1 (path_of self.now.path.now))) }
        ensures { Both s.old start.table (table_from self.now.edition t start.walk (drop 1 self.now.posts.now) (drop 1 (path_of self.now.path.now))) start.bodies (words_from t start.walk (drop 1 (path_of self.now.path.now))) s.new result }
    {
        let mut f = start;
        for k in 1..self.n {
            let b = vertex(self.path, k);
            f = fill_step(f, self.edition, t, b, self.post(k), own, s);
        }
        fill_end(f, t, own, s)
    }

    // The whole table and all bodies.
    fn fill(&self, own: &mut [i32], s: &mut [u8]) -> usize
        requires { step_numbers self.now.grade ≤ length own.old }
        ensures { Both s.old (header_bytes (Stroke self.now.edition)) (table_of self.now.edition self.now.posts.now (path_of self.now.path.now) (bodies_of self.now.grade (path_of self.now.path.now))) (front_bytes (Stroke self.now.edition) self.now.n) (body_words (edges_of self.now.grade (path_of self.now.path.now))) s.new result }
    {
        let bodies = Form::Stroke(self.edition).front(self.n);
        if self.n == 0 {
            put_word(s, HEADER, 0);
            return bodies;
        }
        let a = vertex(self.path, 0);
        let table = put_entry(s, HEADER, self.edition, a, self.post(0), 0);
        let start = Filling {
            walk: Walk::new(a),
            table,
            bodies,
        };
        self.fill_from(step(self.grade), start, own, s)
    }

    // The outline of the path, which has m edges, and its posts.
    pub fn outline(&self, m: usize, own: &mut [i32], s: &mut [u8]) -> usize
        requires room { step_numbers self.now.grade ≤ length own.old }
        requires edges { m ≡ length (edges_of self.now.grade (path_of self.now.path.now)) }
        ensures { Runs put four_bytes s.old 0 (outline_words (Stroke self.now.edition) self.now.grade self.now.posts.now (path_of self.now.path.now)) s.new result }
    {
        put_header(s, self.edition, self.grade, self.n as u32, m as u32);
        self.fill(own, s)
    }
}
