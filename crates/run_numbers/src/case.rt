// A line as a case: its code and the numbers that go with it, and its answer as a line.
use crate::answer;
use crate::answer::Answer;
use lines::line::{Refusal, read_numbers};
use lines::token::Number;
use std::io::Write;
use std::{fmt, io};

// The answer to the case of these numbers, its code first. The codes are the text's own.
fn answer_of(numbers: &[Number]) -> Result<Answer, Refusal> {
    let (code, numbers) = numbers.split_first().ok_or(Refusal::NoCase)?;
    let code = code.natural().ok_or(Refusal::NoCase)?;
    let answer = match (code, numbers) {
        (1, [n]) => answer::root(*n),
        (2, [a, b]) => answer::product(*a, *b),
        (3, [a, b, d]) => answer::quotient(*a, *b, *d),
        (4, [x, y]) => answer::direction(*x, *y),
        (5, [grade]) => answer::step(*grade),
        (6, [c, s, x, y]) => answer::rotation(*c, *s, *x, *y),
        (7, [d, radius]) => answer::scaling(*d, *radius),
        (8, [square]) => answer::shift(*square),
        _ => return Err(Refusal::NoCase),
    };
    answer.ok_or(Refusal::Outside)
}

// The answer to a line, and a line end.
pub fn print_line<W: Write>(page: &mut W, line: &[u8]) -> io::Result<()> {
    let mut room = [Number::ZERO; 16];
    let numbers = read_numbers(line, &mut room).ok_or(Refusal::NoCase);
    match numbers.and_then(|numbers| answer_of(numbers)) {
        Ok(answer) => writeln!(page, "{answer}"),
        Err(refusal) => writeln!(page, "{refusal}"),
    }
}
