// A kerb's outline filled in: the counts and the bodies in one tour.
ghost use Rattle.std.specs.Prelude.{false, ◌≡◌, [], ◌∷◌, ◌+◌, ◌*◌, ◌^◌, ◌≤◌, ◌<◌, length};
ghost use Rattle.runs.specs.Runs.{Runs, put, spread};
ghost use Rattle.plane.specs.Directions.{UnitLong};
ghost use Rattle.turning.specs.Bounds.{Radius};
ghost use Rattle.kerb.specs.Tours.{Touring, done_of};
ghost use Rattle.kerb.specs.Kerbs.{kerb_edges};
ghost use Rattle.kerb_paths.specs.Points.{kerb_path, first_of, way_of, Lent};
ghost use Rattle.paths.specs.Paths.{Within};
ghost use Rattle.words.specs.Words.{four_bytes};
ghost use Rattle.outline.specs.Outlines.{header_of, point_words, outline_words};
ghost use Rattle.outline.specs.declared.Form.TheVariants.{Kerb};
ghost use Rattle.keeping.specs.Fills.{Apart, Both};
ghost use Rattle.kerb_outline.specs.Remaining.{piece_numbers, counts_ahead, words_ahead, TourRoom};
ghost use Rattle.kerb_keeping.specs.KerbFills.{CountFills, PieceFills};

use folds::Pen;
use kerb::{Style, Tour};
use kerb_paths::pieces::{first_tour, piece};
use kerb_paths::points::point;
use outline::layout::{
    FIRST_EDITION, KERB_ENTRY, KERB_HEADER, KERB_KIND, KERB_LEAST, closed_word, join_word,
};
use plane::Vector;
use plane::direction::step;
use words::numbers::put_numbers;
use words::{put_word, wide_bits};

// Where filling stands: the tour and the edges counted of its body, and where the counts and the bodies go on.
#[derive(Clone, Copy)]
pub struct KerbFilling {
    pub tour: Tour,
    pub count: usize,
    pub table: usize,
    pub bodies: usize,
}

// Where the counts go on after a piece: the edges counted of a body, and where its count will stand.
#[derive(Clone, Copy)]
pub struct PutCount {
    pub count: usize,
    pub table: usize,
}

// What a kerb's outline is made of: n points within the limits of a grade, and the style.
#[derive(Clone, Copy)]
pub struct KerbPlan<'a> {
    pub points: &'a [i32],
    pub n: usize,
    pub grade: u32,
    pub style: Style,
    ghost counted: { n ≡ length (kerb_path style.radius points.now) },
    ghost within: { Within grade (kerb_path style.radius points.now) },
    ghost wide: { Radius style.radius },
}

// A kerb's header.
fn put_header(s: &mut [u8], y: Style, grade: u32, n: u32, m: u32) -> usize
    requires { Radius y.radius }
    ensures { Runs put four_bytes s.old 0 (header_of (Kerb y) grade n m) s.new result }
{
    let a = put_word(s, 0, FIRST_EDITION);
    let b = put_word(s, a, KERB_KIND);
    let c = put_word(s, b, grade);
    let d = put_word(s, c, n);
    let e = put_word(s, d, m);
    let f = put_word(s, e, wide_bits(y.radius));
    let g = put_word(s, f, join_word(y.join));
    put_word(s, g, closed_word(y.closed))
}

// A body's count, if it is due.
fn put_count(s: &mut [u8], at: usize, ends: bool, edges: usize) -> PutCount
    requires { (at + 4 < 2 ^ 64) × (edges < 2 ^ 32) }
    ensures { CountFills s.old at ends edges s.new result }
{
    if ends {
        let table = put_word(s, at, edges as u32);
        return PutCount { count: 0, table };
    }
    PutCount {
        count: edges,
        table: at,
    }
}

// The counts of a kerb without edges.
fn put_none(s: &mut [u8], at: usize) -> usize
    requires { at + 12 < 2 ^ 64 }
    ensures { Runs put four_bytes s.old at (0 ∷ 0 ∷ 0 ∷ []) s.new result }
{
    let a = put_word(s, at, 0);
    let b = put_word(s, a, 0);
    put_word(s, b, 0)
}

impl KerbPlan<'_> {
    // The entries of the table: the points.
    fn put_points(&self, s: &mut [u8]) -> usize
        ensures { Runs put four_bytes s.old 32 (spread point_words (kerb_path self.now.style.radius self.now.points.now)) s.new result }
    {
        let mut at = KERB_HEADER;
        for k in 0..self.n {
            let v = point(self.points, self.style, k);
            let a = put_word(s, at, wide_bits(v.x));
            at = put_word(s, a, wide_bits(v.y));
        }
        at
    }

    // The next piece: its count, if that is due, and its edges, which stand in `own` on their way.
    fn fill_piece(&self, t: Vector, f: KerbFilling, own: &mut [i32], s: &mut [u8]) -> KerbFilling
        requires lent { Lent self.now.style self.now.points.now self.now.n × UnitLong t × (piece_numbers ≤ length own.old) × Touring self.now.style (first_of (kerb_path self.now.style.radius self.now.points.now)) (way_of self.now.style (kerb_path self.now.style.radius self.now.points.now)) f.tour }
        requires room { (done_of f.tour.phase ≡ false) × TourRoom t self.now.style (kerb_path self.now.style.radius self.now.points.now) f.tour f.count f.table f.bodies }
        ensures { PieceFills t self.now.style (kerb_path self.now.style.radius self.now.points.now) s.old f s.new result }
    {
        let pen = Pen {
            step: t,
            folds: false,
        };
        let p = piece(self.points, self.n, self.style, f.tour, pen, own, 0);
        let c = put_count(s, f.table, p.ends, f.count + p.at / 4);
        let bodies = put_numbers(own, p.at, s, f.bodies);
        KerbFilling {
            tour: p.tour,
            count: c.count,
            table: c.table,
            bodies,
        }
    }

    // Every piece from a place on.
    fn fill_tour(&self, t: Vector, start: KerbFilling, own: &mut [i32], s: &mut [u8]) -> usize
        requires lent { Lent self.now.style self.now.points.now self.now.n × UnitLong t × (piece_numbers ≤ length own.old) × Touring self.now.style (first_of (kerb_path self.now.style.radius self.now.points.now)) (way_of self.now.style (kerb_path self.now.style.radius self.now.points.now)) start.tour }
        requires room { TourRoom t self.now.style (kerb_path self.now.style.radius self.now.points.now) start.tour start.count start.table start.bodies × Apart start.table (counts_ahead t self.now.style (kerb_path self.now.style.radius self.now.points.now) start.count start.tour) start.bodies (words_ahead t self.now.style (kerb_path self.now.style.radius self.now.points.now) start.tour) }
        ensures { Both s.old start.table (counts_ahead t self.now.style (kerb_path self.now.style.radius self.now.points.now) start.count start.tour) start.bodies (words_ahead t self.now.style (kerb_path self.now.style.radius self.now.points.now) start.tour) s.new result }
    {
        let mut f = start;
        while !f.tour.done() {
            f = self.fill_piece(t, f, own, s);
        }
        f.bodies
    }

    // The outline of the kerb, which has m edges.
    pub fn outline(&self, m: usize, own: &mut [i32], s: &mut [u8]) -> usize
        requires room { piece_numbers ≤ length own.old }
        requires edges { m ≡ length (kerb_edges self.now.grade self.now.style (kerb_path self.now.style.radius self.now.points.now)) }
        ensures { Runs put four_bytes s.old 0 (outline_words (Kerb self.now.style) self.now.grade [] (kerb_path self.now.style.radius self.now.points.now)) s.new result }
    {
        put_header(s, self.style, self.grade, self.n as u32, m as u32);
        let table = self.put_points(s);
        if self.n == 0 || self.style.radius <= 1 {
            return put_none(s, table);
        }
        let start = KerbFilling {
            tour: first_tour(self.points, self.n, self.style),
            count: 0,
            table,
            bodies: KERB_LEAST + KERB_ENTRY * self.n,
        };
        self.fill_tour(step(self.grade), start, own, s)
    }
}
