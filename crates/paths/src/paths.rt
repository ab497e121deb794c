// Paths in lent numbers, three a vertex, and the walk over one: it counts and it writes. Beside a path n is how many vertices it has, so it is no length
// of the slice.
ghost use Rattle.std.specs.Prelude.{◌≡◌, ◌≤◌, ◌<◌, length, get_or, drop};
ghost use Rattle.runs.specs.Runs.{Runs, Room, put};
ghost use Rattle.plane.specs.Directions.{UnitLong};
ghost use Rattle.turning.specs.Edges.{edge_numbers};
ghost use Rattle.contacts.specs.Limits.{first_outside};
ghost use Rattle.variable_stroke.specs.Bounds.{AroundWalk};
ghost use Rattle.paths.specs.Paths.{path_of, none, bodies_from, bodies_at, joined};
ghost use Rattle.paths.specs.Stands.{first_stand, Begins};

use contacts::Vertex;
use contacts::limits::allowed;
use folds::Pen;
use plane::Vector;
use variable_stroke::Walk;

// The k-th vertex of a path.
pub fn vertex(path: &[i32], k: usize) -> Vertex
    requires { k < length (path_of path.now) }
    ensures { result ≡ get_or (path_of path.now) k none }
{
    let i = 3 * k;
    Vertex {
        x: i64::from(path[i]),
        y: i64::from(path[i + 1]),
        radius: i64::from(path[i + 2]),
    }
}

// The first vertex outside the limits, or how many there are.
pub fn first_outside(path: &[i32], n: usize) -> usize
    requires { n ≡ length (path_of path.now) }
    ensures { result ≡ first_outside (path_of path.now) }
{
    for k in 0..n {
        if !allowed(vertex(path, k)) {
            return k;
        }
    }
    n
}

// Where a walk stands: the walk, the vertex that it goes to next, and where the output has come to.
#[derive(Clone, Copy)]
pub struct Stand {
    pub walk: Walk,
    pub next: usize,
    pub at: usize,
}

// The stand at the first vertex.
fn first_stand(path: &[i32]) -> Stand
    requires { 0 < length (path_of path.now) }
    ensures { result ≡ first_stand (get_or (path_of path.now) 0 none) }
{
    Stand {
        walk: Walk::new(vertex(path, 0)),
        next: 1,
        at: 0,
    }
}

// The steps that the room holds, with a pen.
pub fn begin(path: &[i32], n: usize, pen: Pen, out: &mut [i32]) -> Stand
    requires n_value { (n ≡ length (path_of path.now)) × (first_outside (path_of path.now) ≡ length (path_of path.now)) × UnitLong pen.step × (0 < n) }
    requires room { Room edge_numbers 0 (joined (bodies_at pen.step (path_of path.now))) }
    ensures { Begins pen (path_of path.now) out.new result }
{
    let first = first_stand(path);
    let mut w = first.walk;
    let mut at = first.at;
    for k in first.next..n {
        let s = w.stride(out, at, pen, vertex(path, k));
        if out.len() < s.at {
            return Stand {
                walk: w,
                next: k,
                at,
            };
        }
        w = s.walk;
        at = s.at;
    }
    Stand {
        walk: w,
        next: n,
        at,
    }
}

// The edges that a walk still has to emit, and the closing body.
pub fn go_on(path: &[i32], n: usize, t: Vector, from: Stand, out: &mut [i32]) -> usize
    requires n_value { (n ≡ length (path_of path.now)) × (first_outside (path_of path.now) ≡ length (path_of path.now)) × UnitLong t × AroundWalk from.walk × (from.next ≤ n) }
    requires room { Room edge_numbers from.at (joined (bodies_from t from.walk (drop from.next (path_of path.now)))) }
    ensures { Runs put edge_numbers out.old from.at (joined (bodies_from t from.walk (drop from.next (path_of path.now)))) out.new result }
{
    let mut w = from.walk;
    let mut at = from.at;
    for k in from.next..n {
        let s = w.step(out, at, t, vertex(path, k));
        w = s.walk;
        at = s.at;
    }
    w.close(out, at, t)
}

// Every edge of a path within the limits.
pub fn walk(path: &[i32], n: usize, t: Vector, out: &mut [i32]) -> usize
    requires n_value { (n ≡ length (path_of path.now)) × (first_outside (path_of path.now) ≡ length (path_of path.now)) × UnitLong t }
    requires room { Room edge_numbers 0 (joined (bodies_at t (path_of path.now))) }
    ensures { Runs put edge_numbers out.old 0 (joined (bodies_at t (path_of path.now))) out.new result }
{
    if n == 0 {
        0
    } else {
        go_on(path, n, t, first_stand(path), out)
    }
}
