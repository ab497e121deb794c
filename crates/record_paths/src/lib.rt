// A path of so many records: what its count and grade decide before a record is read.
#![tactic(auto)]

ghost use Rattle.std.specs.Prelude.{◌≡◌, ◌*◌, ◌≤◌};
ghost use Rattle.record_paths.specs.RecordPaths.{wanted_of, CountSays};

use replies::Refusal;

// The rows that grade and count decide.
pub fn check_count(n: usize, grade: u32) -> Result<usize, Refusal>
    ensures { CountSays n grade result }
{
    if grade < 2 {
        return Err(Refusal::Grade(grade));
    }
    if 8 < grade {
        return Err(Refusal::Grade(grade));
    }
    if 4096 < n {
        return Err(Refusal::TooMany(n));
    }
    Ok(n)
}

// How many of n records are wanted.
pub fn wanted(n: usize, grade: u32) -> usize
    ensures { result ≡ wanted_of n grade }
{
    check_count(n, grade).unwrap_or(0)
}

// How many numbers so many vertices are.
pub fn numbers_of(m: usize) -> usize
    requires { m ≤ 4096 }
    ensures { result ≡ 3 * m }
{
    3 * m
}
