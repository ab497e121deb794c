// A store compared with the outline that its own vertices and posts give, in one walk: the table and the bodies go on side by side.
ghost use Rattle.std.specs.Prelude.{◌≡◌, ◌+◌, ◌*◌, ◌^◌, ◌≤◌, ◌<◌, length};
ghost use Rattle.runs.specs.Runs.{spread, Runs, agree};
ghost use Rattle.plane.specs.Directions.{UnitLong};
ghost use Rattle.contacts.specs.Bounds.{Inside};
ghost use Rattle.variable_stroke.specs.Bounds.{AroundWalk};
ghost use Rattle.paths.specs.Paths.{path_of, Within};
ghost use Rattle.own_room.specs.OwnRoom.{step_numbers, StepRoom};
ghost use Rattle.outline.specs.Layout.{stroke_bytes, front_bytes};
ghost use Rattle.words.specs.Words.{four_bytes};
ghost use Rattle.outline.specs.Outlines.{post_words, entry_of};
ghost use Rattle.outline.specs.Stores.{posts_of};
ghost use Rattle.outline.specs.declared.Form.TheVariants.{Stroke};
ghost use Rattle.comparing.specs.Compares.{StepAgrees, EndAgrees, Agrees};

use crate::Compared;
use contacts::Vertex;
use outline::layout::HEADER;
use outline::posts::post_at;
use outline::{Edition, Form};
use paths::paths::vertex;
use plane::Vector;
use plane::direction::step;
use variable_stroke::Walk;
use words::numbers::same_numbers;
use words::{same_word, wide_bits};

// Where a comparison stands: the walk, how far the table agrees and where its next entry lies, how far the bodies agree and where they go on.
#[derive(Clone, Copy)]
pub struct Comparing {
    pub walk: Walk,
    pub table: usize,
    pub entry: usize,
    pub bodies: usize,
    pub at: usize,
}

// A post, where the edition has one.
fn same_post(s: &[u8], ok: usize, at: usize, edition: Edition, post: u32) -> usize
    requires { at + 4 < 2 ^ 64 }
    ensures { Runs (agree s.now) four_bytes ok at (post_words edition post) result (at + length (spread four_bytes (post_words edition post))) }
{
    match edition {
        Edition::First => ok,
        Edition::Second => same_word(s, ok, at, post),
    }
}

// An entry of the table.
pub fn same_entry(
    s: &[u8],
    ok: usize,
    at: usize,
    edition: Edition,
    v: Vertex,
    post: u32,
    count: u32,
) -> usize
    requires inside { Inside v }
    requires edition_bound { at + stroke_bytes edition < 2 ^ 64 }
    ensures { Runs (agree s.now) four_bytes ok at (entry_of edition v post count) result (at + stroke_bytes edition) }
{
    let a = same_word(s, ok, at, wide_bits(v.x));
    let b = same_word(s, a, at + 4, wide_bits(v.y));
    let c = same_word(s, b, at + 8, wide_bits(v.radius));
    let d = same_post(s, c, at + 12, edition, post);
    let last = edition.entry_bytes() - 4;
    same_word(s, d, at + last, count)
}

impl Comparing {
    // A step to v: the edges emitted on the way stand in `own` while they are compared.
    pub fn step(
        self,
        edition: Edition,
        t: Vector,
        v: Vertex,
        post: u32,
        own: &mut [i32],
        s: &[u8],
    ) -> Comparing
        requires unit_long { UnitLong t }
        requires around { AroundWalk self.walk × Inside v }
        requires step_room { StepRoom t (length own.old) }
        requires no_wrap { (self.entry + stroke_bytes edition < 2 ^ 64) × (self.at + 147632 < 2 ^ 64) }
        ensures { StepAgrees edition t s.now self v post result }
    {
        let walked = self.walk.step(own, 0, t, v);
        let n = walked.at;
        let table = same_entry(s, self.table, self.entry, edition, v, post, (n / 4) as u32);
        let bodies = same_numbers(own, n, s, self.bodies, self.at);
        let entry = self.entry + edition.entry_bytes();
        let at = self.at + 4 * n;
        Comparing {
            walk: walked.walk,
            table,
            entry,
            bodies,
            at,
        }
    }

    // The end: the closing count and the closing edges.
    pub fn end(self, t: Vector, own: &mut [i32], s: &[u8]) -> Compared
        requires unit_long { UnitLong t }
        requires around { AroundWalk self.walk }
        requires step_room { StepRoom t (length own.old) }
        requires no_wrap { (self.entry + 4 < 2 ^ 64) × (self.at + 147632 < 2 ^ 64) }
        ensures { EndAgrees t s.now self result }
    {
        let n = self.walk.close(own, 0, t);
        let table = same_word(s, self.table, self.entry, (n / 4) as u32);
        let bodies = same_numbers(own, n, s, self.bodies, self.at);
        let end = self.at + 4 * n;
        Compared { table, bodies, end }
    }
}

// The whole table and all bodies. n is the count of vertices that the header says; the path's numbers are three times as many. A kerb's tour
// (kerb_comparing) tells a count only where a body ends, and difference_walk tells of each body by itself: the three share the walk's steps and
// the words below them, and one function over all would be those two calls.
pub fn compare(
    path: &[i32],
    n: usize,
    edition: Edition,
    grade: u32,
    own: &mut [i32],
    s: &[u8],
) -> Compared
    requires path_within { (n ≡ length (path_of path.now)) × Within grade (path_of path.now) × (step_numbers grade ≤ length own.old) }
    requires table_inside { front_bytes (Stroke edition) n ≤ length s.now }
    ensures { Agrees s.now (Stroke edition) grade (posts_of (Stroke edition) n s.now) (path_of path.now) result }
{
    let base = Form::Stroke(edition).front(n);
    if n == 0 {
        let none = same_word(s, HEADER, HEADER, 0);
        return Compared {
            table: none,
            bodies: base,
            end: base,
        };
    }
    let t = step(grade);
    let a = vertex(path, 0);
    let first = same_entry(s, HEADER, HEADER, edition, a, post_at(s, edition, 0), 0);
    let second = HEADER + edition.entry_bytes();
    let mut c = Comparing {
        walk: Walk::new(a),
        table: first,
        entry: second,
        bodies: base,
        at: base,
    };
    for k in 1..n {
        let v = vertex(path, k);
        let p = post_at(s, edition, k);
        c = c.step(edition, t, v, p, own, s);
    }
    c.end(t, own, s)
}
