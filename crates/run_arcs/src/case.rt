// A line as a case: its code, the numbers that go with it, and the answer to it.
use crate::answer;
use crate::answer::Answer;
use lines::line::{Refusal, read_numbers};
use lines::token::Number;
use std::io;
use std::io::Write;

// The answer to the case of these numbers, its code first. The codes are the text's own.
fn answer_of<'a>(numbers: &[Number], out: &'a mut [i32]) -> Result<Answer<'a>, Refusal> {
    let (code, n) = numbers.split_first().ok_or(Refusal::NoCase)?;
    let code = code.natural().ok_or(Refusal::NoCase)?;
    let answer = match (code, n.len()) {
        (1, 9) => answer::arc(out, n[0], &n[1..4], &n[4..6], &n[6..8], n[8]),
        (2, 4) => answer::circle(out, n[0], &n[1..4]),
        (3, 6) => answer::contacts(&n[0..3], &n[3..6]),
        (4, 9) => answer::covering(&n[0..3], &n[3..6], &n[6..9]),
        (5, 13) => answer::join(out, n[0], &n[1..4], &n[4..7], &n[7..10], &n[10..13]),
        _ => return Err(Refusal::NoCase),
    };
    answer.ok_or(Refusal::Outside)
}

// The answer to a line, and a line end.
pub fn print_line<W: Write>(page: &mut W, line: &[u8], out: &mut [i32]) -> io::Result<()> {
    let mut room = [Number::ZERO; 16];
    let numbers = read_numbers(line, &mut room).ok_or(Refusal::NoCase);
    match numbers.and_then(|numbers| answer_of(numbers, out)) {
        Ok(answer) => writeln!(page, "{answer}"),
        Err(refusal) => writeln!(page, "{refusal}"),
    }
}
