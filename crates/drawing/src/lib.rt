// draw: a path's edges into lent numbers.
#![tactic(auto)]

ghost use Rattle.std.specs.Prelude.{◌≡◌, ◌^◌, ◌≤◌, ◌<◌, length, take};
ghost use Rattle.runs.specs.Runs.{over, put};
ghost use Rattle.plane.specs.Directions.{UnitLong, step_of};
ghost use Rattle.folds.specs.Folds.{Holds, Edgewise, RoomFor, Sizes, Unfolds};
ghost use Rattle.paths.specs.Paths.{path_of};
ghost use Rattle.paths.specs.Stands.{Begins};
ghost use Rattle.replies.specs.Checks.{Fits};
ghost use Rattle.drawing.specs.Drawing.{Draws};

use folds::Pen;
use folds::unfolding::{unfold, unfolded};
use paths::paths::{Stand, begin, go_on};
use plane::direction::step;
use replies::Refusal;
use replies::path_rows::check_path;

// How many numbers the edges come to that a pen has left in own numbers.
fn held_size(own: &[i32], m: usize, pen: Pen) -> usize
    requires { Holds own.now m × Edgewise pen own.now m × (m ≤ 2 ^ 32) }
    ensures { Sizes own.now m result }
{
    if pen.folds { unfolded(own, m) } else { m }
}

// The first m numbers of one row into another that has room for them, one by one: of `copy_from_slice` the compiler makes memmove.
pub fn copy(from: &[i32], m: usize, out: &mut [i32])
    requires { (m ≤ length from.now) × (m ≤ length out.old) }
    ensures { out.new ≡ over put out.old 0 (take m from.now) }
{
    for j in 0..m {
        out[j] = from[j];
    }
}

// Those edges, into room that is long enough.
fn put_held(own: &[i32], m: usize, pen: Pen, out: &mut [i32]) -> usize
    requires { UnitLong pen.step × Holds own.now m × Edgewise pen own.now m × RoomFor pen.step own.now m (length out.old) }
    ensures { Unfolds pen.step own.now m out.old out.new result }
{
    if pen.folds {
        return unfold(own, m, pen.step, out);
    }
    copy(own, m, out);
    m
}

// A path of n vertices, one or more, that passed its rows, and the pen that it is drawn with.
#[derive(Clone, Copy)]
struct Subject<'a> {
    path: &'a [i32],
    n: usize,
    grade: u32,
    pen: Pen,
    ghost fits: { Fits path.now grade n },
    ghost some: { 0 < n },
    ghost stepped: { pen.step ≡ step_of grade },
}

impl Subject<'_> {
    // Its edges, the first steps of which own numbers hold: the rest is counted; where there are edges and room for them, what the own numbers hold
    // is put there and the rest is drawn.
    fn draw_begun(&self, begun: Stand, own: &[i32], out: &mut [i32]) -> Result<usize, Refusal>
        requires short { length own.now ≤ 2 ^ 32 }
        requires begins { Begins self.now.pen (path_of self.now.path.now) own.now begun }
        ensures { Draws self.now.path.now self.now.grade out.old result out.new }
    {
        let size = held_size(own, begun.at, self.pen);
        let rest = Stand { at: size, ..begun };
        let mut nowhere = [0i32; 0];
        let numbers = go_on(self.path, self.n, self.pen.step, rest, &mut nowhere);
        if numbers == 0 {
            return Err(Refusal::WithoutEdges(self.n));
        }
        if out.len() < numbers {
            return Err(Refusal::NoRoom(numbers / 4));
        }
        put_held(own, begun.at, self.pen, out);
        let done = go_on(self.path, self.n, self.pen.step, rest, out);
        Ok(done / 4)
    }

    // Its edges by way of N own numbers, which hold as many of its first steps as they can.
    fn draw_through<const N: usize>(&self, out: &mut [i32]) -> Result<usize, Refusal>
        requires { N ≤ 2 ^ 32 }
        ensures { Draws self.now.path.now self.now.grade out.old result out.new }
    {
        let mut own = [0i32; N];
        let begun = begin(self.path, self.n, self.pen, &mut own);
        self.draw_begun(begun, &own, out)
    }

    // Its edges by way of some thousands of own numbers.
    fn draw_middle(&self, need: usize, out: &mut [i32]) -> Result<usize, Refusal>
        ensures { Draws self.now.path.now self.now.grade out.old result out.new }
    {
        if need <= 1024 {
            return self.draw_through::<1024>(out);
        }
        self.draw_through::<8192>(out)
    }

    // The same by way of many thousands: the one or the other, whose room the compiler lays over each other.
    fn draw_long(&self, need: usize, out: &mut [i32]) -> Result<usize, Refusal>
        ensures { Draws self.now.path.now self.now.grade out.old result out.new }
    {
        if need <= 28672 {
            return self.draw_through::<32768>(out);
        }
        self.draw_through::<131072>(out)
    }

    // The same by way of as many as likely hold the path. Where a few do not hold it, it calls itself for more. The compiler lays no large arrays into a
    // function that calls itself, so that a short path does not pay for a long one's room.
    fn draw_sized(&self, need: usize, out: &mut [i32]) -> Result<usize, Refusal>
        ensures { Draws self.now.path.now self.now.grade out.old result out.new }
    {
        if need <= 256 {
            let mut own = [0i32; 256];
            let begun = begin(self.path, self.n, self.pen, &mut own);
            if begun.next < self.n {
                return self.draw_sized(1024, out);
            }
            return self.draw_begun(begun, &own, out);
        }
        if need <= 8192 {
            return self.draw_middle(need, out);
        }
        self.draw_long(need, out)
    }
}

// About how many numbers a path comes to: only speed leans on it.
fn likely(n: usize, grade: u32) -> usize
    requires { (n ≤ 4096) × (grade ≤ 8) }
{
    n * (16 + (2 << grade))
}

// Whether arcs are folded: at grades 7 and 8, and at 5 and 6 where there are more numbers than own ones. Only speed leans on it.
fn folds(grade: u32, about: usize) -> bool {
    6 < grade || 4 < grade && 131072 < about
}

// About how many own numbers hold a path: folded, it is some 31 a vertex. Only speed leans on it.
fn held(n: usize, about: usize, folding: bool) -> usize
    requires { n ≤ 4096 }
{
    if folding { 31 * n } else { about }
}

// The edges of a path that passed its rows.
pub fn draw_path(path: &[i32], n: usize, grade: u32, out: &mut [i32]) -> Result<usize, Refusal>
    requires { Fits path.now grade n }
    ensures { Draws path.now grade out.old result out.new }
{
    if n == 0 {
        return Ok(0);
    }
    let about = likely(n, grade);
    let folds = folds(grade, about);
    let pen = Pen {
        step: step(grade),
        folds,
    };
    let subject = Subject {
        path,
        n,
        grade,
        pen,
    };
    subject.draw_sized(held(n, about, folds), out)
}

// The edges of a path, four numbers an edge, into lent numbers.
pub fn draw(path: &[i32], grade: u32, out: &mut [i32]) -> Result<usize, Refusal>
    ensures { Draws path.now grade out.old result out.new }
{
    let n = check_path(path, grade)?;
    draw_path(path, n, grade, out)
}
