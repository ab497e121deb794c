// The first byte in which a store differs from the outline of a path: its header, table and bodies in their order.
ghost use Rattle.std.specs.Prelude.{◌≡◌, ◌≤◌, length};
ghost use Rattle.runs.specs.Runs.{Runs, agree};
ghost use Rattle.turning.specs.Bounds.{Radius};
ghost use Rattle.words.specs.Words.{four_bytes};
ghost use Rattle.outline.specs.Layout.{header_bytes};
ghost use Rattle.outline.specs.Outlines.{style_words, header_of, outline_bytes};
ghost use Rattle.outline.specs.Stores.{posts_of, first_differing};
ghost use Rattle.outline.specs.Theorems.{FormWithin};
ghost use Rattle.outline.specs.declared.Form.TheVariants.{Kerb};
ghost use Rattle.comparing.specs.Compares.{lent_path, Agrees};

use crate::Compared;
use kerb::Style;
use outline::Form;
use outline::layout::{EDGE, closed_word, join_word};
use words::{same_word, wide_bits};

// A kerb's style, after the edge count. Its bound is a clause and no invariant of Style: a header's words are read as a style before their row
// is tested.
fn same_style(s: &[u8], ok: usize, y: Style) -> usize
    requires { Radius y.radius }
    ensures { Runs (agree s.now) four_bytes ok 20 (style_words (Kerb y)) result 32 }
{
    let a = same_word(s, ok, 20, wide_bits(y.radius));
    let b = same_word(s, a, 24, join_word(y.join));
    same_word(s, b, 28, closed_word(y.closed))
}

// What a form's header has after the edge count.
fn same_rest(s: &[u8], ok: usize, form: Form) -> usize
    requires { FormWithin form }
    ensures { Runs (agree s.now) four_bytes ok 20 (style_words form) result (header_bytes form) }
{
    match form {
        Form::Stroke(_) => ok,
        Form::Kerb(y) => same_style(s, ok, y),
    }
}

// The header of an outline of n vertices and m edges.
fn same_header(s: &[u8], form: Form, grade: u32, n: u32, m: u32) -> usize
    requires { FormWithin form }
    ensures { Runs (agree s.now) four_bytes 0 0 (header_of form grade n m) result (header_bytes form) }
{
    let a = same_word(s, 0, 0, form.edition_word());
    let b = same_word(s, a, 4, form.kind_word());
    let c = same_word(s, b, 8, grade);
    let d = same_word(s, c, 12, n);
    let e = same_word(s, d, 16, m);
    same_rest(s, e, form)
}

// The first byte in which the store differs from the outline of the path, or the outline's length.
pub fn first_difference(
    path: &[i32],
    s: &[u8],
    form: Form,
    grade: u32,
    n: usize,
    c: Compared,
) -> usize
    requires vertices { (n ≡ length (lent_path form path.now)) × (n ≤ 4096) × FormWithin form }
    requires agrees { Agrees s.now form grade (posts_of form n s.now) (lent_path form path.now) c }
    ensures { result ≡ first_differing s.now (outline_bytes form grade (posts_of form n s.now) (lent_path form path.now)) }
{
    let base = form.front(n);
    let m = (c.end - base) / EDGE;
    let f = same_header(s, form, grade, n as u32, m as u32);
    if f < form.header_bytes() {
        return f;
    }
    if c.table < base {
        return c.table;
    }
    c.bodies
}
