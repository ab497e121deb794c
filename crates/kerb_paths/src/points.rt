// A kerb's points in lent numbers, two a point, and the way over them. Beside the points n is how many there are, so it is no length of the slice.
ghost use Rattle.std.specs.Prelude.{◌≡◌, ◌≤◌, ◌<◌, length, get_or};
ghost use Rattle.contacts.specs.Limits.{first_outside};
ghost use Rattle.paths.specs.Paths.{none};
ghost use Rattle.kerb_paths.specs.Points.{kerb_path, way_of, way_count};

use contacts::Vertex;
use contacts::limits::allowed;
use kerb::Style;

// The k-th point, with the style's radius.
pub fn point(points: &[i32], y: Style, k: usize) -> Vertex
    requires { k < length (kerb_path y.radius points.now) }
    ensures { result ≡ get_or (kerb_path y.radius points.now) k none }
{
    let i = 2 * k;
    Vertex {
        x: i64::from(points[i]),
        y: i64::from(points[i + 1]),
        radius: y.radius,
    }
}

// The first point outside the limits, or how many there are.
pub fn first_outside(points: &[i32], y: Style, n: usize) -> usize
    requires { n ≡ length (kerb_path y.radius points.now) }
    ensures { result ≡ first_outside (kerb_path y.radius points.now) }
{
    for k in 0..n {
        if !allowed(point(points, y, k)) {
            return k;
        }
    }
    n
}

// How many points a tour goes to after the first.
pub fn way_count(n: usize, y: Style) -> usize
    requires { 0 < n }
    ensures { result ≡ way_count y.closed n }
{
    if y.closed { n } else { n - 1 }
}

// The point ahead: the k-th after the first, or the first again.
pub fn ahead(points: &[i32], y: Style, n: usize, k: usize) -> Vertex
    requires { (n ≡ length (kerb_path y.radius points.now)) × (0 < n) × (k ≤ n) }
    ensures { k < length (way_of y (kerb_path y.radius points.now)) → result ≡ get_or (way_of y (kerb_path y.radius points.now)) k none }
{
    if k < n - 1 {
        point(points, y, k + 1)
    } else {
        point(points, y, 0)
    }
}
