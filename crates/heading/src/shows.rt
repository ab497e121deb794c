// A store's vertices as numbers: three a vertex, of a kerb two.
ghost use Rattle.std.specs.Prelude.{◌≡◌, [], ◌∷◌, ◌+◌, ◌*◌, ◌≤◌, length, drop};
ghost use Rattle.runs.specs.Runs.{Runs, put};
ghost use Rattle.paths.specs.Paths.{vertex_numbers};
ghost use Rattle.outline.specs.Layout.{stroke_bytes, header_words, front_bytes};
ghost use Rattle.outline.specs.declared.Form.TheVariants.{Stroke};
ghost use Rattle.words.specs.Words.{words_in};
ghost use Rattle.heading.specs.Shows.{lent_numbers, lent_width, shown_in, shown_at, PointShows, PointsShow};

use outline::layout::{HEADER_WORDS, KERB_ENTRY_WORDS, KERB_HEADER_WORDS};
use outline::{Edition, Form};
use words::{signed, word_at};

// How many numbers a vertex of a form is shown as.
pub fn width(form: Form) -> usize
    ensures { result ≡ lent_width form }
{
    match form {
        Form::Stroke(_) => 3,
        Form::Kerb(_) => 2,
    }
}

// The k-th vertex of a store as three numbers.
fn show_vertex(s: &[u8], edition: Edition, k: usize, out: &mut [i32])
    requires { (20 + (stroke_bytes edition * k + stroke_bytes edition) ≤ length s.now) × (3 * k + 3 ≤ length out.old) }
    ensures { Runs put vertex_numbers out.old (3 * k) (shown_at (Stroke edition) s.now k ∷ []) out.new (3 * k + 3) }
{
    let wide = edition.entry_words();
    let entry = HEADER_WORDS + wide * k;
    let x = signed(word_at(s, entry));
    let y = signed(word_at(s, entry + 1));
    let radius = signed(word_at(s, entry + 2));
    let at = 3 * k;
    out[at] = x;
    out[at + 1] = y;
    out[at + 2] = radius;
}

// The k-th point of a kerb's store as two numbers.
fn show_point(s: &[u8], k: usize, out: &mut [i32])
    requires { (32 + 8 * k + 8 ≤ length s.now) × (2 * k + 2 ≤ length out.old) }
    ensures { PointShows s.now k out.old out.new }
{
    let entry = KERB_HEADER_WORDS + KERB_ENTRY_WORDS * k;
    let x = signed(word_at(s, entry));
    let y = signed(word_at(s, entry + 1));
    let at = 2 * k;
    out[at] = x;
    out[at + 1] = y;
}

// The vertices of a stroke's store, three numbers a vertex; n is what its header says. A kerb's points have two: one function over both would be
// these two loops, since the promise is by the form.
fn show_vertices(s: &[u8], edition: Edition, n: usize, out: &mut [i32])
    requires { (front_bytes (Stroke edition) n ≤ length s.now) × (3 * n ≤ length out.old) }
    ensures { Runs put vertex_numbers out.old 0 (shown_in (Stroke edition) n (drop (header_words (Stroke edition)) (words_in s.now))) out.new (3 * n) }
{
    for k in 0..n {
        show_vertex(s, edition, k, out);
    }
}

// The points of a kerb's store, two numbers a point.
fn show_points(s: &[u8], n: usize, out: &mut [i32])
    requires { (44 + 8 * n ≤ length s.now) × (2 * n ≤ length out.old) }
    ensures { PointsShow s.now n out.old out.new }
{
    for k in 0..n {
        show_point(s, k, out);
    }
}

// The vertices of a store as numbers.
pub fn show_path(s: &[u8], form: Form, n: usize, out: &mut [i32])
    requires { (front_bytes form n ≤ length s.now) × (lent_width form * n ≤ length out.old) }
    ensures { Runs put (lent_numbers form) out.old 0 (shown_in form n (drop (header_words form) (words_in s.now))) out.new (lent_width form * n) }
{
    match form {
        Form::Stroke(e) => show_vertices(s, e, n, out),
        Form::Kerb(_) => show_points(s, n, out),
    }
}
