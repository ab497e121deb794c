// The calls for C and Rust: numbers and slices only.
#![tactic(auto)]

ghost use Rattle.std.specs.Prelude.{◌≡◌, Err};
ghost use Rattle.turning.specs.Bounds.{Radius};
ghost use Rattle.outline.specs.Theorems.{FormWithin};
ghost use Rattle.outline.specs.declared.Form.TheVariants.{Kerb};
ghost use Rattle.replies.specs.Refusals.{refusal_of, reply_of};
ghost use Rattle.keeping.specs.Keeping.{plain_posts};
ghost use Rattle.reading.specs.Reading.{reply_of_read, grade_of_read, form_of_read};
ghost use Rattle.sehmelir.specs.Boundary.{Replies, FormTold, PathReplies, DrawReplies, DrawKerbReplies, KeepReplies, KeepKerbReplies, ReadReplies, NumbersReplies, ReplaceReplies, ReachReplies, Tells, ImportReplies, ExportReplies};
ghost use Rattle.oldest.specs.Taken.{coordinate_of, reason_of, width_of};

use kerb::Style;
use oldest::NotTaken;
use outline::layout::{KERB_KIND, STROKE_KIND, closed_word, join_word};
use outline::{Edition, Form};
use reading::Read;
use replies::{Code, Refusal};
use words::wide_bits;

pub mod chunk_calls;
pub mod convert_calls;
pub mod reason_calls;
pub mod record_calls;
pub mod salvage_calls;
pub mod side_calls;

// Document 01's reply, the grade beside it (of a read outline, else 0), and the number with it.
#[repr(C)]
#[derive(Clone, Copy)]
pub struct Reply {
    pub reply: u32,
    pub grade: u32,
    pub number: u64,
}

// What reading came to: the reply, the grade beside it and its number, the kind, and a kerb's radius, join and closed; each 0 where there is none.
#[repr(C)]
#[derive(Clone, Copy)]
pub struct Path {
    pub reply: u32,
    pub grade: u32,
    pub number: u64,
    pub kind: u32,
    pub radius: u32,
    pub join: u32,
    pub closed: u32,
}

// A form in numbers: the kind, and a kerb's radius, join and closed.
#[derive(Clone, Copy)]
pub struct FormNumbers {
    pub kind: u32,
    pub radius: u32,
    pub join: u32,
    pub closed: u32,
}

// What a float is taken for: 0 and the whole number; or the reason, 1 to 6, and 0.
#[repr(C)]
#[derive(Clone, Copy)]
pub struct Taken {
    pub reason: u32,
    pub whole: i32,
}

// A refusal as a reply, without a grade.
impl From<Refusal> for Reply {
    ghost from_gives = { λ refusal reply. Replies reply (refusal_of refusal) 0 };

    fn from(refusal: Refusal) -> Reply {
        let code = Code::from(refusal);
        Reply {
            reply: code.reply,
            grade: 0,
            number: code.number,
        }
    }
}

// What a call came to as a reply, without a grade.
impl From<Result<usize, Refusal>> for Reply {
    ghost from_gives = { λ answer reply. Replies reply (reply_of answer) 0 };

    fn from(answer: Result<usize, Refusal>) -> Reply {
        match answer {
            Ok(number) => Reply {
                reply: 0,
                grade: 0,
                number: number as u64,
            },
            Err(refusal) => Reply::from(refusal),
        }
    }
}

// A kerb's style in numbers.
fn style_numbers(y: Style) -> FormNumbers
    requires { Radius y.radius }
    ensures { FormTold result (Kerb y) }
{
    let join = y.join;
    FormNumbers {
        kind: KERB_KIND,
        radius: wide_bits(y.radius),
        join: join_word(join),
        closed: closed_word(y.closed),
    }
}

// A form in numbers.
fn form_numbers(form: Form) -> FormNumbers
    requires { FormWithin form }
    ensures { FormTold result form }
{
    match form {
        Form::Stroke(_) => FormNumbers {
            kind: STROKE_KIND,
            radius: 0,
            join: 0,
            closed: 0,
        },
        Form::Kerb(y) => style_numbers(y),
    }
}

// The form beside what reading came to.
fn form_read(answer: Result<Read, Refusal>) -> Form
    ensures { result ≡ form_of_read answer }
{
    match answer {
        Ok(read) => read.form,
        Err(_) => Form::Stroke(Edition::First),
    }
}

// What reading came to as a reply, with the grade.
fn vertices_read(answer: Result<Read, Refusal>) -> Reply
    ensures { Replies result (reply_of_read answer) (grade_of_read answer) }
{
    match answer {
        Ok(read) => Reply {
            reply: 0,
            grade: read.grade,
            number: read.vertices as u64,
        },
        Err(refusal) => Reply::from(refusal),
    }
}

// What reading came to, with its form beside it.
fn path_read(answer: Result<Read, Refusal>) -> Path
    requires { FormWithin (form_of_read answer) }
    ensures { PathReplies result (reply_of_read answer) (grade_of_read answer) (form_of_read answer) }
{
    let reply = vertices_read(answer);
    let form = form_numbers(form_read(answer));
    Path {
        reply: reply.reply,
        grade: reply.grade,
        number: reply.number,
        kind: form.kind,
        radius: form.radius,
        join: form.join,
        closed: form.closed,
    }
}

// The number of a reason, 1 to 6.
fn reason_number(reason: NotTaken) -> u32
    ensures { result ≡ reason_of (Err reason) }
{
    match reason {
        NotTaken::NotANumber(_) => 1,
        NotTaken::Infinite(_) => 2,
        NotTaken::Fraction(_) => 3,
        NotTaken::TooLarge(_) => 4,
        NotTaken::NegativeWidth(_) => 5,
        NotTaken::OddWidth(_) => 6,
    }
}

// What a float is taken for, as numbers.
impl From<Result<i32, NotTaken>> for Taken {
    ghost from_gives = { λ answer taken. Tells taken answer };

    fn from(answer: Result<i32, NotTaken>) -> Taken {
        match answer {
            Ok(whole) => Taken { reason: 0, whole },
            Err(reason) => Taken {
                reason: reason_number(reason),
                whole: 0,
            },
        }
    }
}

// Draws a path's edges into lent numbers, four an edge.
#[unsafe(no_mangle)]
pub extern "C" fn sehmelir_draw(path: &[i32], grade: u32, out: &mut [i32]) -> Reply
    ensures { DrawReplies path.now grade out.old result out.new }
{
    Reply::from(calls::draw(path, grade, out))
}

// Draws a kerb's edges into lent numbers, four an edge: two numbers a point, and radius, join (0 bevel, 1 round) and closed (0 or 1) beside them.
#[unsafe(no_mangle)]
pub extern "C" fn sehmelir_draw_kerb(
    points: &[i32],
    grade: u32,
    radius: u32,
    join: u32,
    closed: u32,
    out: &mut [i32],
) -> Reply
    ensures { DrawKerbReplies points.now grade radius join closed out.old result out.new }
{
    Reply::from(calls::draw_kerb(points, grade, radius, join, closed, out))
}

// Keeps a path's outline as bytes.
#[unsafe(no_mangle)]
pub extern "C" fn sehmelir_keep(path: &[i32], grade: u32, out: &mut [u8]) -> Reply
    ensures { KeepReplies path.now (plain_posts path.now) grade out.old result out.new }
{
    Reply::from(calls::keep(path, grade, out))
}

// Keeps a kerb's outline as bytes.
#[unsafe(no_mangle)]
pub extern "C" fn sehmelir_keep_kerb(
    points: &[i32],
    grade: u32,
    radius: u32,
    join: u32,
    closed: u32,
    out: &mut [u8],
) -> Reply
    ensures { KeepKerbReplies points.now grade radius join closed out.old result out.new }
{
    Reply::from(calls::keep_kerb(points, grade, radius, join, closed, out))
}

// Reads the path of a sound outline into lent numbers, three a vertex, of a kerb two.
#[unsafe(no_mangle)]
pub extern "C" fn sehmelir_read(store: &[u8], out: &mut [i32]) -> Path
    ensures { ReadReplies store.now out.old result out.new }
{
    path_read(calls::read(store, out))
}

// Reads the point numbers of a sound outline of kind 0 into lent numbers, one a vertex: zeros in edition 1.
#[unsafe(no_mangle)]
pub extern "C" fn sehmelir_numbers(store: &[u8], out: &mut [u32]) -> Reply
    ensures { NumbersReplies store.now out.old result out.new }
{
    Reply::from(calls::numbers(store, out))
}

// Replaces a vertex of a sound outline, in place.
#[unsafe(no_mangle)]
pub extern "C" fn sehmelir_replace(
    store: &mut [u8],
    index: usize,
    x: i32,
    y: i32,
    radius: i32,
) -> Reply
    ensures { ReplaceReplies store.old index (record { x = x; y = y; radius = radius }) result store.new }
{
    Reply::from(calls::replace(store, index, x, y, radius))
}

// Tells how far replacing a vertex of a sound outline can reach.
#[unsafe(no_mangle)]
pub extern "C" fn sehmelir_reach(store: &[u8], index: usize) -> Reply
    ensures { ReachReplies store.now index result }
{
    Reply::from(calls::reach(store, index))
}

// Takes a float of the oldest chunks as a coordinate.
#[unsafe(no_mangle)]
pub extern "C" fn sehmelir_take_coordinate(value: f32) -> Taken
    ensures { Tells result (coordinate_of value) }
{
    Taken::from(oldest::taking::coordinate(value))
}

// Takes a float of the oldest chunks as a width; the whole number is the radius.
#[unsafe(no_mangle)]
pub extern "C" fn sehmelir_take_width(value: f32) -> Taken
    ensures { Tells result (width_of value) }
{
    Taken::from(oldest::taking::width(value))
}

// Takes the floats of the oldest chunks, three a vertex, into lent numbers, three a vertex.
#[unsafe(no_mangle)]
pub extern "C" fn sehmelir_import(numbers: &[f32], out: &mut [i32]) -> Reply
    ensures { ImportReplies numbers.now out.old result out.new }
{
    Reply::from(oldest::importing::import(numbers, out))
}

// Writes a path, three numbers a vertex, as the floats of the oldest chunks.
#[unsafe(no_mangle)]
pub extern "C" fn sehmelir_export(path: &[i32], out: &mut [f32]) -> Reply
    ensures { ExportReplies path.now out.old result out.new }
{
    Reply::from(oldest::exporting::export(path, out))
}
