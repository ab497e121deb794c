// Corners and caps of a kerb; follows src/mesh/int/stroke/builder_join.rs.
ghost use Rattle.std.specs.Prelude.{◌≡◌, ◌++◌};
ghost use Rattle.runs.specs.Runs.{Runs, Room, put};
ghost use Rattle.plane.specs.Vectors.{Near};
ghost use Rattle.plane.specs.Directions.{UnitLong};
ghost use Rattle.turning.specs.Edges.{edge_numbers, edge_of};
ghost use Rattle.turning.specs.Bounds.{Centre, Radius};
ghost use Rattle.folds.specs.Pens.{Lays};
ghost use Rattle.contacts.specs.Contacts.{centre_of};
ghost use Rattle.kerb.specs.Kerbs.{straight_of, round_of, outer_of, corner_of};
ghost use Rattle.kerb.specs.Bounds.{OffCentre, Clear};
ghost use Rattle.kerb.specs.Tours.{sides_of, caps_both};

use crate::{Join, Style};
use arc::circle::swept;
use contacts::Section;
use contacts::math::centre;
use folds::Pen;
use joins::builder_join::bend;
use plane::direction::{direction, measured};
use plane::vectors::{cross, dot, from_to};
use plane::{Point, Vector};
use turning::edges::edge;

// Two edges, one after the other.
fn two(out: &mut [i32], at: usize, p: Point, q: Point, r: Point, s: Point) -> usize
    requires near { Near p × Near q × Near r × Near s }
    requires room { Room edge_numbers at (edge_of p q ++ edge_of r s) }
    ensures { Runs put edge_numbers out.old at (edge_of p q ++ edge_of r s) out.new result }
{
    let i = edge(out, at, p, q);
    edge(out, i, r, s)
}

// Whether an arc from the direction d to e is one edge.
fn straight(d: Vector, e: Vector) -> bool
    requires { UnitLong d × UnitLong e }
    ensures { result ≡ straight_of d e }
{
    cross(d, e) <= 0 && 0 < dot(d, e)
}

// A round corner's outer side.
fn round(out: &mut [i32], at: usize, pen: Pen, y: Style, c: Point, p: Point, q: Point) -> usize
    requires unit_long { UnitLong pen.step × Centre c × Radius y.radius × OffCentre c p × OffCentre c q }
    requires room { Room edge_numbers at (round_of pen.step c y.radius p q) }
    ensures { Lays pen.step pen.folds out.old at (round_of pen.step c y.radius p q) out.new result }
{
    let m = from_to(c, p);
    let n = from_to(c, q);
    // both lengths first: neither waits for the other
    let k = measured(m);
    let l = measured(n);
    let d = direction(m, k);
    let e = direction(n, l);
    if straight(d, e) {
        return edge(out, at, p, q);
    }
    swept(out, at, pen, c, y.radius, p, d, q, e)
}

// A corner's outer side.
pub fn outer(out: &mut [i32], at: usize, pen: Pen, y: Style, c: Point, p: Point, q: Point) -> usize
    requires unit_long { UnitLong pen.step × Centre c × Radius y.radius × OffCentre c p × OffCentre c q }
    requires room { Room edge_numbers at (outer_of pen.step y.join c y.radius p q) }
    ensures { Lays pen.step pen.folds out.old at (outer_of pen.step y.join c y.radius p q) out.new result }
{
    match y.join {
        Join::Bevel => edge(out, at, p, q),
        Join::Round => round(out, at, pen, y, c, p, q),
    }
}

// A corner: on its inner side through the vertex, then its outer side.
pub fn corner(out: &mut [i32], at: usize, pen: Pen, y: Style, prev: Section, next: Section) -> usize
    requires unit_long { UnitLong pen.step × Radius y.radius × Clear prev × Clear next × (centre_of prev.b ≡ centre_of next.a) }
    requires room { Room edge_numbers at (corner_of pen.step y prev next) }
    ensures { Lays pen.step pen.folds out.old at (corner_of pen.step y prev next) out.new result }
{
    let c = centre(prev.b);
    if 0 <= bend(prev, next) {
        let i = two(out, at, next.left.a, c, c, prev.left.b);
        outer(out, i, pen, y, c, prev.right.b, next.right.a)
    } else {
        let i = two(out, at, prev.right.b, c, c, next.right.a);
        outer(out, i, pen, y, c, next.left.a, prev.left.b)
    }
}

// A section's two edges.
pub fn sides(out: &mut [i32], at: usize, s: Section) -> usize
    requires clear { Clear s }
    requires room { Room edge_numbers at (sides_of s) }
    ensures { Runs put edge_numbers out.old at (sides_of s) out.new result }
{
    two(out, at, s.left.b, s.left.a, s.right.a, s.right.b)
}

// The caps of a kerb that does not close.
pub fn caps(out: &mut [i32], at: usize, first: Section, last: Section) -> usize
    requires clear { Clear first × Clear last }
    requires room { Room edge_numbers at (caps_both first last) }
    ensures { Runs put edge_numbers out.old at (caps_both first last) out.new result }
{
    two(
        out,
        at,
        first.left.a,
        first.right.a,
        last.right.b,
        last.left.b,
    )
}
