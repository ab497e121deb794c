// An arc's turning, the one door for both: written where there is room, and counted, which is quicker, where there is none.
ghost use Rattle.std.specs.Prelude.{◌<◌};
ghost use Rattle.runs.specs.Runs.{Runs, Room, put};
ghost use Rattle.plane.specs.Vectors.{Near};
ghost use Rattle.plane.specs.Directions.{UnitLong};
ghost use Rattle.turning.specs.Edges.{edge_numbers};
ghost use Rattle.turning.specs.Arcs.{turns_of};
ghost use Rattle.turning.specs.Bounds.{Turns};

use crate::counting::counted;
use plane::rotation::rotated;
use plane::vectors::cross;
use plane::{Point, Vector};
use turning::Turning;
use turning::edges::edge;
use turning::turn::{point_at, stops, written};

// From the point p in the direction d: the edges to the inner points, at most 1,536 of them, and to the end; past the room they are counted.
pub fn turns(out: &mut [i32], at: usize, r: Turning, d: Vector, p: Point) -> usize
    requires turns { Turns r }
    requires unit_long { UnitLong d × Near p }
    requires room { Room edge_numbers at (turns_of 1536 r d p) }
    ensures { Runs put edge_numbers out.old at (turns_of 1536 r d p) out.new result }
{
    if at < out.len() {
        return written(out, at, r, d, p);
    }
    let next = rotated(r.step, d);
    if stops(cross(d, r.toward), d, next, r.toward) {
        return edge(out, at, p, r.to);
    }
    let q = point_at(r.centre, r.radius, next);
    let n = edge(out, at, p, q);
    counted(n, r, next)
}
