// A store compared with the outline of a kerb, in one tour: the counts and the bodies go on side by side.
#![tactic(auto)]

ghost use Rattle.std.specs.Prelude.{false, ◌≡◌, [], ◌+◌, ◌*◌, ◌^◌, ◌≤◌, ◌<◌, length};
ghost use Rattle.runs.specs.Runs.{Runs, agree, spread};
ghost use Rattle.plane.specs.Directions.{UnitLong};
ghost use Rattle.turning.specs.Bounds.{Radius};
ghost use Rattle.contacts.specs.Limits.{first_outside};
ghost use Rattle.kerb.specs.Tours.{Touring, done_of};
ghost use Rattle.kerb_paths.specs.Points.{kerb_path, first_of, way_of, Lent};
ghost use Rattle.paths.specs.Paths.{Within};
ghost use Rattle.words.specs.Words.{four_bytes};
ghost use Rattle.outline.specs.Outlines.{point_words};
ghost use Rattle.outline.specs.declared.Form.TheVariants.{Kerb};
ghost use Rattle.comparing.specs.Compares.{Agrees};
ghost use Rattle.kerb_outline.specs.Remaining.{piece_numbers, TourRoom};
ghost use Rattle.kerb_comparing.specs.KerbCompares.{CountAgrees, PieceAgrees, TourAgrees, NoBodies};

use comparing::Compared;
use folds::Pen;
use kerb::{Style, Tour};
use kerb_paths::pieces::{first_tour, piece};
use kerb_paths::points::point;
use outline::layout::{KERB_ENTRY, KERB_HEADER, KERB_LEAST};
use plane::Vector;
use plane::direction::step;
use words::numbers::same_numbers;
use words::{same_word, wide_bits};

// Where a comparison stands: the tour and the edges counted of its body, how far the table agrees and where its next count lies, how far the bodies
// agree and where they go on.
#[derive(Clone, Copy)]
pub struct KerbComparing {
    pub tour: Tour,
    pub count: usize,
    pub table: usize,
    pub entry: usize,
    pub bodies: usize,
    pub at: usize,
}

// Where the table goes on after a piece: the edges counted of a body, how far the table agrees, and where its next count lies.
#[derive(Clone, Copy)]
pub struct Counted {
    pub count: usize,
    pub table: usize,
    pub entry: usize,
}

// The entries of the table: the points. n counts points, here and below: each is two of the numbers.
fn same_points(points: &[i32], n: usize, y: Style, s: &[u8]) -> usize
    requires { (n ≡ length (kerb_path y.radius points.now)) × (n ≤ 4096) × (first_outside (kerb_path y.radius points.now) ≡ length (kerb_path y.radius points.now)) }
    ensures { Runs (agree s.now) four_bytes 32 32 (spread point_words (kerb_path y.radius points.now)) result (32 + 8 * n) }
{
    let mut ok = KERB_HEADER;
    for k in 0..n {
        let v = point(points, y, k);
        let at = KERB_HEADER + KERB_ENTRY * k;
        let a = same_word(s, ok, at, wide_bits(v.x));
        ok = same_word(s, a, at + 4, wide_bits(v.y));
    }
    ok
}

// The counts of a kerb without edges.
fn no_bodies(s: &[u8], ok: usize, entry: usize, base: usize) -> Compared
    requires { entry + 12 < 2 ^ 64 }
    ensures { NoBodies s.now ok entry base result }
{
    let a = same_word(s, ok, entry, 0);
    let b = same_word(s, a, entry + 4, 0);
    let table = same_word(s, b, entry + 8, 0);
    Compared {
        table,
        bodies: base,
        end: base,
    }
}

impl KerbComparing {
    // The next place in the table, once a piece was compared: its count, if that is due.
    fn same_count(self, ends: bool, edges: usize, s: &[u8]) -> Counted
        requires { (self.entry + 4 < 2 ^ 64) × (edges < 2 ^ 32) }
        ensures { CountAgrees s.now self.table self.entry ends edges result }
    {
        if ends {
            Counted {
                count: 0,
                table: same_word(s, self.table, self.entry, edges as u32),
                entry: self.entry + 4,
            }
        } else {
            Counted {
                count: edges,
                table: self.table,
                entry: self.entry,
            }
        }
    }

    // The next piece: its edges stand in `own` while they are compared.
    fn piece(
        self,
        points: &[i32],
        n: usize,
        y: Style,
        t: Vector,
        own: &mut [i32],
        s: &[u8],
    ) -> KerbComparing
        requires lent { Lent y points.now n × UnitLong t × (piece_numbers ≤ length own.old) }
        requires touring { Touring y (first_of (kerb_path y.radius points.now)) (way_of y (kerb_path y.radius points.now)) self.tour × (done_of self.tour.phase ≡ false) }
        requires tour_room { TourRoom t y (kerb_path y.radius points.now) self.tour self.count self.entry self.at }
        ensures { PieceAgrees t y (kerb_path y.radius points.now) s.now self result }
    {
        let pen = Pen {
            step: t,
            folds: false,
        };
        let p = piece(points, n, y, self.tour, pen, own, 0);
        let k = p.at;
        let bodies = same_numbers(own, k, s, self.bodies, self.at);
        let at = self.at + 4 * k;
        let d = self.same_count(p.ends, self.count + k / 4, s);
        KerbComparing {
            tour: p.tour,
            count: d.count,
            table: d.table,
            entry: d.entry,
            bodies,
            at,
        }
    }
}

// Every piece from a place on. No count of pieces stands ahead of a tour, so it goes on until the tour is done.
fn compare_tour(
    points: &[i32],
    n: usize,
    y: Style,
    t: Vector,
    start: KerbComparing,
    own: &mut [i32],
    s: &[u8],
) -> Compared
    requires lent { Lent y points.now n × UnitLong t × (piece_numbers ≤ length own.old) }
    requires touring { Touring y (first_of (kerb_path y.radius points.now)) (way_of y (kerb_path y.radius points.now)) start.tour }
    requires tour_room { TourRoom t y (kerb_path y.radius points.now) start.tour start.count start.entry start.at }
    ensures { TourAgrees t y (kerb_path y.radius points.now) s.now start result }
{
    let mut c = start;
    while !c.tour.done() {
        c = c.piece(points, n, y, t, own, s);
    }
    Compared {
        table: c.table,
        bodies: c.bodies,
        end: c.at,
    }
}

// The whole table and all bodies of a kerb.
pub fn compare_kerb(
    points: &[i32],
    n: usize,
    grade: u32,
    y: Style,
    own: &mut [i32],
    s: &[u8],
) -> Compared
    requires { (n ≡ length (kerb_path y.radius points.now)) × Within grade (kerb_path y.radius points.now) × Radius y.radius × (piece_numbers ≤ length own.old) }
    ensures { Agrees s.now (Kerb y) grade [] (kerb_path y.radius points.now) result }
{
    let base = KERB_LEAST + KERB_ENTRY * n;
    let entry = KERB_HEADER + KERB_ENTRY * n;
    let ok = same_points(points, n, y, s);
    if n == 0 || y.radius <= 1 {
        return no_bodies(s, ok, entry, base);
    }
    let start = KerbComparing {
        tour: first_tour(points, n, y),
        count: 0,
        table: ok,
        entry,
        bodies: base,
        at: base,
    };
    compare_tour(points, n, y, step(grade), start, own, s)
}
