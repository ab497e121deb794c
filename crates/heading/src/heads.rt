// The rows of a store's header. Each gives what the rows after it go on with, or why the store is refused.
ghost use Rattle.std.specs.Prelude.{◌≡◌, ◌≤◌, ◌^◌, ◌<◌, length};
ghost use Rattle.outline.specs.Stores.{count_in, form_in, grade_in, kind_in, length_in};
ghost use Rattle.outline.specs.Layout.{length_of};
ghost use Rattle.outline.specs.Theorems.{FormWithin};
ghost use Rattle.replies.specs.Replies.{count_row, grade_row};
ghost use Rattle.heading.specs.StoreRows.{edition_row, kind_row, unfit_row, style_row_in, length_row};
ghost use Rattle.heading.specs.Heads.{head_rows, kind_number, EditionKnown, Fitting, RowsSay, Tells};

use crate::Header;
use kerb::styles::style_of;
use outline::layout::{FIRST_EDITION, KERB_KIND, KERB_LEAST, LEAST, SECOND_EDITION, STROKE_KIND};
use outline::{Edition, Form};
use replies::Refusal;
use replies::style_rows::style_fault;
use words::word_at;

// The grades that a store may have, and its vertices at most.
const LEAST_GRADE: u32 = 1;

const MOST_GRADE: u32 = 8;

const MOST_VERTICES: usize = 4096;

// What an outline is of.
#[derive(Clone, Copy)]
enum Kind {
    Stroke,
    Kerb,
}

// Bytes enough for a header, and its edition.
fn read_edition(s: &[u8]) -> Result<Edition, Refusal>
    ensures { Tells result (edition_row s.now) (EditionKnown s.now) }
{
    if s.len() < LEAST {
        return Err(Refusal::NotOutline);
    }
    let edition = word_at(s, 0);
    if edition == FIRST_EDITION {
        Ok(Edition::First)
    } else if edition == SECOND_EDITION {
        Ok(Edition::Second)
    } else {
        Err(Refusal::NotOutline)
    }
}

// The header's kind.
fn read_kind(s: &[u8]) -> Result<Kind, Refusal>
    requires { 24 ≤ length s.now }
    ensures { Tells result (kind_row s.now) (λ kind. kind_in s.now ≡ kind_number kind) }
{
    let kind = word_at(s, 1);
    if kind == STROKE_KIND {
        Ok(Kind::Stroke)
    } else if kind == KERB_KIND {
        Ok(Kind::Kerb)
    } else {
        Err(Refusal::Kind(kind))
    }
}

// A kerb's outline has bytes enough for its own header, and is of the first edition.
fn fits_kind(s: &[u8], edition: Edition, kind: Kind) -> Result<(), Refusal>
    requires edition { EditionKnown s.now edition }
    requires kind { kind_in s.now ≡ kind_number kind }
    ensures { Tells result (unfit_row s.now) (λ _. Fitting s.now edition kind) }
{
    if let Kind::Stroke = kind {
        return Ok(());
    }
    if s.len() < KERB_LEAST {
        return Err(Refusal::NotOutline);
    }
    match edition {
        Edition::First => Ok(()),
        Edition::Second => Err(Refusal::NotOutline),
    }
}

// The header's grade.
fn read_grade(s: &[u8]) -> Result<u32, Refusal>
    requires { 24 ≤ length s.now }
    ensures { Tells result (grade_row (grade_in s.now)) (λ grade. (grade ≡ grade_in s.now) × (1 ≤ grade) × (grade ≤ 8)) }
{
    let grade = word_at(s, 2);
    if grade < LEAST_GRADE || MOST_GRADE < grade {
        return Err(Refusal::Grade(grade));
    }
    Ok(grade)
}

// The form by edition and kind: a kerb's style has words of its own in the header.
fn read_form(s: &[u8], edition: Edition, kind: Kind) -> Result<Form, Refusal>
    requires { Fitting s.now edition kind }
    ensures { Tells result (style_row_in s.now) (λ form. (form ≡ form_in s.now) × FormWithin form) }
{
    if let Kind::Stroke = kind {
        return Ok(Form::Stroke(edition));
    }
    let radius = word_at(s, 5);
    let join = word_at(s, 6);
    let closed = word_at(s, 7);
    match style_fault(radius, join, closed) {
        Some(place) => Err(Refusal::StyleWord(place)),
        None => Ok(Form::Kerb(style_of(radius, join, closed))),
    }
}

// How many vertices the header says.
fn read_count(s: &[u8]) -> Result<usize, Refusal>
    requires { 24 ≤ length s.now }
    ensures { Tells result (count_row (count_in s.now)) (λ n. (n ≡ count_in s.now) × (n ≤ 4096)) }
{
    let n = word_at(s, 3) as usize;
    if MOST_VERTICES < n {
        return Err(Refusal::TooMany(n));
    }
    Ok(n)
}

// Bytes enough for what the header says.
fn fits_length(s: &[u8], form: Form, n: usize, m: usize) -> Result<(), Refusal>
    requires { (length_of form n m ≡ length_in s.now) × (length_of form n m < 2 ^ 64) }
    ensures { Tells result (length_row s.now) (λ _. length_in s.now ≤ length s.now) }
{
    if s.len() < form.whole_length(n, m) {
        return Err(Refusal::NotOutline);
    }
    Ok(())
}

// The rows of the header.
pub fn head_rows(s: &[u8]) -> Result<Header, Refusal>
    ensures { RowsSay s.now (head_rows s.now) result }
{
    let edition = read_edition(s)?;
    let kind = read_kind(s)?;
    fits_kind(s, edition, kind)?;
    let grade = read_grade(s)?;
    let form = read_form(s, edition, kind)?;
    let n = read_count(s)?;
    let m = word_at(s, 4) as usize;
    fits_length(s, form, n, m)?;
    Ok(Header { form, grade, n, m })
}
