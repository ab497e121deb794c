// A circle at grade 8, from the table: document 02, request 2.
ghost use Rattle.std.specs.Prelude.{◌≡◌};
ghost use Rattle.runs.specs.Runs.{Room};
ghost use Rattle.plane.specs.Directions.{step_of};
ghost use Rattle.turning.specs.Edges.{edge_numbers};
ghost use Rattle.turning.specs.Arcs.{circle_of};
ghost use Rattle.turning.specs.Bounds.{Centre, Radius};
ghost use Rattle.folds.specs.Pens.{Lays};

use crate::circle::{EASTWARD, WESTWARD, east, west};
use folds::Pen;
use folds::folding::fold_counted;
use half_turn::half_turns;
use plane::Point;
use turning::Turning;

// From the radius 512 on every edge has length: a circle is 806 edges, and each half of it 402 rotations.
pub fn fine_circle(out: &mut [i32], at: usize, pen: Pen, c: Point, radius: i64) -> usize
    requires step_value { (pen.step ≡ step_of 8) × Centre c × Radius radius }
    requires room { Room edge_numbers at (circle_of pen.step c radius) }
    ensures { Lays pen.step pen.folds out.old at (circle_of pen.step c radius) out.new result }
{
    if radius <= 1 {
        return at;
    }
    let e = east(c, radius);
    let w = west(c, radius);
    let r = Turning {
        step: pen.step,
        centre: c,
        radius,
        to: w,
        toward: WESTWARD,
    };
    let s = Turning {
        step: pen.step,
        centre: c,
        radius,
        to: e,
        toward: EASTWARD,
    };
    if pen.folds && 512 <= radius {
        let n = fold_counted(out, at, r, EASTWARD, e, 402);
        fold_counted(out, n, s, WESTWARD, w, 402)
    } else if out.len() <= at && 512 <= radius {
        at + 3224
    } else {
        let n = half_turns(out, at, r, e, false);
        half_turns(out, n, s, w, true)
    }
}
