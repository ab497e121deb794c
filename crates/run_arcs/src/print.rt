// An answer as text: edges, contacts, or one number.
use crate::answer::Answer;
use contacts::{Section, Trend};
use std::fmt;

// The number of a trend.
fn number_of(trend: Trend) -> i64 {
    match trend {
        Trend::Decreasing => 0,
        Trend::Constant => 1,
        Trend::Increasing => 2,
    }
}

// The contacts of a section, the trend, and which contacts are exact, each after a space.
fn write_section<W: fmt::Write>(f: &mut fmt::Formatter<W>, s: Section) -> fmt::Result {
    for edge in [s.left, s.right] {
        write!(f, " {} {} {} {}", edge.a.x, edge.a.y, edge.b.x, edge.b.y)?;
    }
    write!(f, " {}", number_of(s.trend))?;
    for exact in [s.exact.left, s.exact.right] {
        write!(f, " {} {}", u8::from(exact.a), u8::from(exact.b))?;
    }
    Ok(())
}

// How many edges, and the four numbers of each.
fn write_edges<W: fmt::Write>(f: &mut fmt::Formatter<W>, numbers: &[i32]) -> fmt::Result {
    write!(f, "{}", numbers.len() / 4)?;
    for number in numbers {
        write!(f, " {number}")?;
    }
    Ok(())
}

impl fmt::Display for Answer<'_> {
    fn fmt<W: fmt::Write>(&self, f: &mut fmt::Formatter<W>) -> fmt::Result {
        match self {
            Answer::Edges(numbers) => write_edges(f, numbers),
            Answer::Broken => write!(f, "0"),
            Answer::Drawn(section) => {
                write!(f, "1")?;
                write_section(f, *section)
            }
            Answer::Thin(section) => {
                write!(f, "2")?;
                write_section(f, *section)
            }
            Answer::Covers(covered) => write!(f, "{}", u8::from(*covered)),
        }
    }
}
