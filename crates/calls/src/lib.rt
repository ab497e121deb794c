// The calls with room of their own: a path's edges, its kept outline, the path of an outline, another vertex in one, and how far that reaches. What is
// small gets few own numbers, since they must be zeros first.
#![tactic(auto)]

ghost use Rattle.drawing.specs.Drawing.{Draws};
ghost use Rattle.kerb_drawing.specs.KerbDrawing.{DrawsKerb};
ghost use Rattle.keeping.specs.Keeping.{plain_posts, Keeps};
ghost use Rattle.kerb_keeping.specs.KerbKeeping.{KeepsKerb};
ghost use Rattle.reading.specs.Reading.{Reads};
ghost use Rattle.reading.specs.PostsReading.{ReadsPosts};
ghost use Rattle.editing.specs.Replacing.{Replaces};
ghost use Rattle.reaching.specs.Replies.{Reaches};

use checking::sizes::is_small;
use contacts::Vertex;
use reading::Read;
use replies::Refusal;

// Draws a path's edges into lent numbers, four an edge.
pub fn draw(path: &[i32], grade: u32, out: &mut [i32]) -> Result<usize, Refusal>
    ensures { Draws path.now grade out.old result out.new }
{
    drawing::draw(path, grade, out)
}

// Draws a kerb's edges into lent numbers, four an edge.
pub fn draw_kerb(
    points: &[i32],
    grade: u32,
    radius: u32,
    join: u32,
    closed: u32,
    out: &mut [i32],
) -> Result<usize, Refusal>
    ensures { DrawsKerb points.now grade radius join closed out.old result out.new }
{
    kerb_drawing::draw_kerb(points, grade, radius, join, closed, out)
}

// Keeps a path's outline as bytes.
pub fn keep(path: &[i32], grade: u32, out: &mut [u8]) -> Result<usize, Refusal>
    ensures { Keeps path.now (plain_posts path.now) grade out.old result out.new }
{
    if grade <= 4 {
        let mut own = [0i32; 592];
        return keeping::keep_with(path, grade, &mut own, out);
    }
    let mut own = [0i32; 8272];
    keeping::keep_with(path, grade, &mut own, out)
}

// Keeps a kerb's outline as bytes.
pub fn keep_kerb(
    points: &[i32],
    grade: u32,
    radius: u32,
    join: u32,
    closed: u32,
    out: &mut [u8],
) -> Result<usize, Refusal>
    ensures { KeepsKerb points.now grade radius join closed out.old result out.new }
{
    let mut own = [0i32; 8272];
    kerb_keeping::keep_kerb_with(points, grade, radius, join, closed, &mut own, out)
}

// Reads the path of a sound outline into lent numbers, three a vertex, of a kerb two.
pub fn read(store: &[u8], out: &mut [i32]) -> Result<Read, Refusal>
    ensures { Reads store.now out.old result out.new }
{
    if is_small(store) {
        let mut path = [0i32; 192];
        let mut own = [0i32; 592];
        return reading::read_with(store, out, &mut path, &mut own);
    }
    let mut path = [0i32; 12288];
    let mut own = [0i32; 8272];
    reading::read_with(store, out, &mut path, &mut own)
}

// Reads the posts of a sound outline of a stroke, its vertices' point numbers, into lent numbers.
pub fn numbers(store: &[u8], out: &mut [u32]) -> Result<usize, Refusal>
    ensures { ReadsPosts store.now out.old result out.new }
{
    if is_small(store) {
        let mut path = [0i32; 192];
        let mut own = [0i32; 592];
        return reading::posts::posts_with(store, out, &mut path, &mut own);
    }
    let mut path = [0i32; 12288];
    let mut own = [0i32; 8272];
    reading::posts::posts_with(store, out, &mut path, &mut own)
}

// Replaces a vertex of a sound outline by another, in place.
fn replace_vertex(store: &mut [u8], index: usize, v: Vertex) -> Result<usize, Refusal>
    ensures { Replaces store.old index v result store.new }
{
    if is_small(store) {
        let mut path = [0i32; 192];
        let mut posts = [0u32; 64];
        let mut own = [0i32; 592];
        return editing::replacing::replace_with(store, index, v, &mut path, &mut posts, &mut own);
    }
    let mut path = [0i32; 12288];
    let mut posts = [0u32; 4096];
    let mut own = [0i32; 8272];
    editing::replacing::replace_with(store, index, v, &mut path, &mut posts, &mut own)
}

// Replaces a vertex of a sound outline, in place.
pub fn replace(
    store: &mut [u8],
    index: usize,
    x: i32,
    y: i32,
    radius: i32,
) -> Result<usize, Refusal>
    ensures { Replaces store.old index (record { x = x; y = y; radius = radius }) result store.new }
{
    let v = Vertex {
        x: i64::from(x),
        y: i64::from(y),
        radius: i64::from(radius),
    };
    replace_vertex(store, index, v)
}

// Tells how far replacing a vertex of a sound outline can reach.
pub fn reach(store: &[u8], index: usize) -> Result<usize, Refusal>
    ensures { Reaches store.now index result }
{
    if is_small(store) {
        let mut path = [0i32; 192];
        let mut own = [0i32; 592];
        return reaching::reach::reach_with(store, index, &mut path, &mut own);
    }
    let mut path = [0i32; 12288];
    let mut own = [0i32; 8272];
    reaching::reach::reach_with(store, index, &mut path, &mut own)
}
