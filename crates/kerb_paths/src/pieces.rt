// The tour over a kerb's points, piece by piece: it counts and it writes.
ghost use Rattle.std.specs.Prelude.{◌≡◌, ◌≤◌, length};
ghost use Rattle.runs.specs.Runs.{Runs, Room, put};
ghost use Rattle.plane.specs.Directions.{UnitLong};
ghost use Rattle.turning.specs.Edges.{edge_numbers};
ghost use Rattle.turning.specs.Bounds.{Radius};
ghost use Rattle.contacts.specs.Limits.{first_outside};
ghost use Rattle.kerb.specs.Kerbs.{kerb_edges};
ghost use Rattle.kerb.specs.Tours.{tour_from, piece_of, rest_of, Touring};
ghost use Rattle.kerb_paths.specs.Points.{kerb_path, first_of, way_of, Lent};
ghost use Rattle.kerb_paths.specs.Pieces.{Begun, Pieces};

use crate::points::{ahead, point, way_count};
use folds::Pen;
use kerb::{Style, Tour};
use plane::Vector;
use plane::direction::step;

// A tour after a piece, where the output has come to, and whether the piece was its body's last.
#[derive(Clone, Copy)]
pub struct Pieced {
    pub tour: Tour,
    pub at: usize,
    pub ends: bool,
}

// The tour from the first point.
pub fn first_tour(points: &[i32], n: usize, y: Style) -> Tour
    requires { Lent y points.now n }
    ensures { Begun y (kerb_path y.radius points.now) result }
{
    Tour::new(point(points, y, 0))
}

// The tour's next piece, with a pen.
pub fn piece(
    points: &[i32],
    n: usize,
    y: Style,
    w: Tour,
    pen: Pen,
    out: &mut [i32],
    at: usize,
) -> Pieced
    requires lent { Lent y points.now n × UnitLong pen.step × Touring y (first_of (kerb_path y.radius points.now)) (way_of y (kerb_path y.radius points.now)) w }
    requires room { Room edge_numbers at (piece_of pen.step y (way_of y (kerb_path y.radius points.now)) w) }
    ensures { Pieces pen y (kerb_path y.radius points.now) w out.old at out.new result }
{
    let first = point(points, y, 0);
    let b = ahead(points, y, n, w.next);
    let more = w.next < way_count(n, y);
    let s = w.step(out, at, pen, y, first, more, b);
    Pieced {
        tour: s.tour,
        at: s.at,
        ends: w.ends(more),
    }
}

// Every edge of a kerb that draws.
fn walk(points: &[i32], n: usize, y: Style, t: Vector, out: &mut [i32]) -> usize
    requires lent { Lent y points.now n × UnitLong t }
    requires room { Room edge_numbers 0 (rest_of t y (first_of (kerb_path y.radius points.now)) (way_of y (kerb_path y.radius points.now)) (tour_from (first_of (kerb_path y.radius points.now)))) }
    ensures { Runs put edge_numbers out.old 0 (rest_of t y (first_of (kerb_path y.radius points.now)) (way_of y (kerb_path y.radius points.now)) (tour_from (first_of (kerb_path y.radius points.now)))) out.new result }
{
    let pen = Pen {
        step: t,
        folds: false,
    };
    let mut w = first_tour(points, n, y);
    let mut at: usize = 0;
    // no count: a tour ends where its phase does
    while !w.done() {
        let s = piece(points, n, y, w, pen, out, at);
        w = s.tour;
        at = s.at;
    }
    at
}

// Every edge of a kerb within the limits.
pub fn kerb_edges(points: &[i32], n: usize, grade: u32, y: Style, out: &mut [i32]) -> usize
    requires { (n ≡ length (kerb_path y.radius points.now)) × (n ≤ 4096) × (first_outside (kerb_path y.radius points.now) ≡ length (kerb_path y.radius points.now)) × Radius y.radius × (1 ≤ grade) × (grade ≤ 8) }
    ensures { Runs put edge_numbers out.old 0 (kerb_edges grade y (kerb_path y.radius points.now)) out.new result }
{
    if n == 0 {
        return 0;
    }
    if y.radius <= 1 {
        return 0;
    }
    walk(points, n, y, step(grade), out)
}
