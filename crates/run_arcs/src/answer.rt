// The answer to each kind of case, if its numbers lie within what the function takes.
use crate::numbers::{choice_of, pen_of, point, vertex, whole};
use contacts::math::{centre, kind};
use contacts::sections::{covers_circle, section};
use contacts::{Kind, Section};
use lines::token::Number;

// What a case comes to: the numbers of its edges, that a step is broken, drawn or thin, with its section, or whether a circle is covered.
#[derive(Clone, Copy)]
pub enum Answer<'a> {
    Edges(&'a [i32]),
    Broken,
    Drawn(Section),
    Thin(Section),
    Covers(bool),
}

// The edges of an arc about a vertex.
pub fn arc<'a>(
    out: &'a mut [i32],
    grade: Number,
    v: &[Number],
    p: &[Number],
    q: &[Number],
    choice: Number,
) -> Option<Answer<'a>> {
    let pen = pen_of(grade)?;
    let c = centre(vertex(v)?);
    let p = point(c, p)?;
    let q = point(c, q)?;
    let count = arc::arcs::arc(out, 0, pen, c, p, q, choice_of(choice));
    Some(Answer::Edges(out.get(..count)?))
}

// The edges of a vertex's circle.
pub fn circle<'a>(out: &'a mut [i32], grade: Number, v: &[Number]) -> Option<Answer<'a>> {
    let pen = pen_of(grade)?;
    let v = vertex(v)?;
    let count = arc::circle::circle(out, 0, pen, centre(v), v.radius);
    Some(Answer::Edges(out.get(..count)?))
}

// The kind of the step from a to b and, unless it is broken, its section.
pub fn contacts(a: &[Number], b: &[Number]) -> Option<Answer<'static>> {
    let a = vertex(a)?;
    let b = vertex(b)?;
    Some(match kind(a, b) {
        Kind::Broken => Answer::Broken,
        Kind::Drawn => Answer::Drawn(section(a, b)),
        Kind::Thin => Answer::Thin(section(a, b)),
    })
}

// Whether the section from a to b covers the circle of v.
pub fn covering(a: &[Number], b: &[Number], v: &[Number]) -> Option<Answer<'static>> {
    let s = whole(vertex(a)?, vertex(b)?)?;
    Some(Answer::Covers(covers_circle(s, vertex(v)?)))
}

// The edges of the join of the section from a to b with the section from c to d.
pub fn join<'a>(
    out: &'a mut [i32],
    grade: Number,
    a: &[Number],
    b: &[Number],
    c: &[Number],
    d: &[Number],
) -> Option<Answer<'a>> {
    let pen = pen_of(grade)?;
    let prev = whole(vertex(a)?, vertex(b)?)?;
    let next = whole(vertex(c)?, vertex(d)?)?;
    let count = joins::builder_join::join(out, 0, pen, prev, next);
    Some(Answer::Edges(out.get(..count)?))
}
