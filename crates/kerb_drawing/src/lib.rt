// draw: a kerb's edges into lent numbers.
#![tactic(auto)]

ghost use Rattle.std.specs.Prelude.{◌≡◌, ◌^◌, ◌≤◌, ◌<◌, length};
ghost use Rattle.runs.specs.Runs.{Runs, put};
ghost use Rattle.turning.specs.Edges.{edge_numbers};
ghost use Rattle.turning.specs.Bounds.{Radius};
ghost use Rattle.contacts.specs.Limits.{first_outside};
ghost use Rattle.kerb.specs.Kerbs.{kerb_edges};
ghost use Rattle.kerb_paths.specs.Points.{kerb_path};
ghost use Rattle.kerb_rows.specs.KerbRows.{KerbFits};
ghost use Rattle.kerb_drawing.specs.KerbDrawing.{DrawsKerb};
ghost use Rattle.kerb_drawing.specs.Counted.{Counted};

use drawing::copy;
use kerb::Style;
use kerb_paths::pieces::kerb_edges;
use kerb_rows::LentKerb;
use replies::Refusal;

// A kerb's edges, m numbers, into room that is long enough: those that own numbers hold, or else drawn.
fn put_edges(
    points: &[i32],
    n: usize,
    grade: u32,
    y: Style,
    own: &[i32],
    m: usize,
    out: &mut [i32],
) -> usize
    requires sound { (n ≡ length (kerb_path y.radius points.now)) × (n ≤ 4096) × (first_outside (kerb_path y.radius points.now) ≡ length (kerb_path y.radius points.now)) × Radius y.radius × (1 ≤ grade) × (grade ≤ 8) }
    requires counted { Counted (kerb_edges grade y (kerb_path y.radius points.now)) own.now m × (m ≤ length out.old) }
    ensures { Runs put edge_numbers out.old 0 (kerb_edges grade y (kerb_path y.radius points.now)) out.new result }
{
    if m <= own.len() {
        copy(own, m, out);
        return m;
    }
    kerb_edges(points, n, grade, y, out)
}

// The edges of a kerb that passed its rows, by way of N own numbers: they hold its edges, if they can, and count them; where there is room they
// are put there.
fn draw_through<const N: usize>(
    kerb: &LentKerb,
    n: usize,
    out: &mut [i32],
) -> Result<usize, Refusal>
    requires { KerbFits kerb.now.points.now kerb.now.grade kerb.now.radius kerb.now.join kerb.now.closed n × (0 < n) × (N ≤ 2 ^ 32) }
    ensures { DrawsKerb kerb.now.points.now kerb.now.grade kerb.now.radius kerb.now.join kerb.now.closed out.old result out.new }
{
    let mut own = [0i32; N];
    let y = kerb.style();
    let numbers = kerb_edges(kerb.points, n, kerb.grade, y, &mut own);
    if numbers == 0 {
        return Err(Refusal::WithoutEdges(n));
    }
    if out.len() < numbers {
        return Err(Refusal::NoRoom(numbers / 4));
    }
    let done = put_edges(kerb.points, n, kerb.grade, y, &own, numbers, out);
    Ok(done / 4)
}

// About how many numbers a kerb comes to: only speed leans on it.
fn likely(n: usize, grade: u32, join: u32) -> usize
    requires { (n ≤ 4096) × (grade ≤ 8) }
{
    if join == 0 {
        20 * n
    } else {
        n * (20 + (2 << grade))
    }
}

// The edges of a kerb that passed its rows, by way of as many own numbers as likely hold them, or of none where they likely hold too few.
fn draw_points(kerb: &LentKerb, n: usize, out: &mut [i32]) -> Result<usize, Refusal>
    requires { KerbFits kerb.now.points.now kerb.now.grade kerb.now.radius kerb.now.join kerb.now.closed n }
    ensures { DrawsKerb kerb.now.points.now kerb.now.grade kerb.now.radius kerb.now.join kerb.now.closed out.old result out.new }
{
    if n == 0 {
        return Ok(0);
    }
    let about = likely(n, kerb.grade, kerb.join);
    if about <= 1024 {
        return draw_through::<1024>(kerb, n, out);
    }
    if about <= 8192 {
        return draw_through::<8192>(kerb, n, out);
    }
    if about <= 131072 {
        return draw_through::<131072>(kerb, n, out);
    }
    draw_through::<0>(kerb, n, out)
}

// The edges of a kerb, four numbers an edge, into lent numbers.
pub fn draw_kerb(
    points: &[i32],
    grade: u32,
    radius: u32,
    join: u32,
    closed: u32,
    out: &mut [i32],
) -> Result<usize, Refusal>
    ensures { DrawsKerb points.now grade radius join closed out.old result out.new }
{
    let kerb = LentKerb {
        points,
        grade,
        radius,
        join,
        closed,
    };
    let n = kerb.check()?;
    draw_points(&kerb, n, out)
}
