// The numbers of a line: decimal numbers with spaces between them.
ghost use Rattle.std.specs.Prelude.{◌≡◌, length};
ghost use Rattle.std.specs.Iterator.{at_most};
ghost use Rattle.lines.specs.Rests.{LeftOf};

// A whole number, its sign and its size apart.
#[derive(Clone, Copy, Debug, PartialEq, Eq)]
pub struct Number {
    pub minus: bool,
    pub size: u64,
}

// A number that a type doesn't hold.
#[derive(Clone, Copy, Debug, PartialEq, Eq)]
pub struct OutOfRange;

impl Number {
    // 0, without a minus.
    pub const ZERO: Number = Number {
        minus: false,
        size: 0,
    };

    // The number, unless a minus stands before it.
    pub fn natural(self) -> Option<u64> {
        if self.minus { None } else { Some(self.size) }
    }
}

impl TryFrom<Number> for i64 {
    type Error = OutOfRange;

    fn try_from(number: Number) -> Result<i64, OutOfRange> {
        let size = i64::try_from(number.size).map_err(|_| OutOfRange)?;
        Ok(if number.minus { -size } else { size })
    }
}

impl TryFrom<Number> for i32 {
    type Error = OutOfRange;

    fn try_from(number: Number) -> Result<i32, OutOfRange> {
        i32::try_from(i64::try_from(number)?).map_err(|_| OutOfRange)
    }
}

// A byte has no minus, 0 neither.
impl TryFrom<Number> for u8 {
    type Error = OutOfRange;

    fn try_from(number: Number) -> Result<u8, OutOfRange> {
        let size = number.natural().ok_or(OutOfRange)?;
        u8::try_from(size).map_err(|_| OutOfRange)
    }
}

// The size that a word of digits spells, if it fits.
fn read_digits(word: &[u8]) -> Option<u64> {
    if word.is_empty() {
        return None;
    }
    let mut size: u64 = 0;
    for byte in word {
        if !byte.is_ascii_digit() {
            return None;
        }
        size = size.checked_mul(10)?.checked_add(u64::from(*byte - b'0'))?;
    }
    Some(size)
}

// The number that a word spells, with or without a minus.
fn read_word(word: &[u8]) -> Option<Number> {
    let (minus, digits) = match word.strip_prefix(b"-") {
        Some(digits) => (true, digits),
        None => (false, word),
    };
    let size = read_digits(digits)?;
    Some(Number { minus, size })
}

// The numbers of a line, up to the first word that spells none.
#[derive(Clone, Copy, Debug)]
pub struct Numbers<'a> {
    rest: &'a [u8],
}

impl<'a> Numbers<'a> {
    // From the line's front on.
    pub fn of(line: &'a [u8]) -> Numbers<'a>
        ensures { result.rest.now ≡ line.now }
    {
        Numbers { rest: line }
    }

    // Whether nothing is left of the line, no space either.
    pub fn is_done(&self) -> bool {
        self.rest.is_empty()
    }
}

impl Iterator for Numbers<'_> {
    type Item = Number;

    ghost next_gives = { λ before number after. LeftOf before.rest.now after.rest.now };

    ghost remaining = { λ numbers. at_most (length numbers.rest.now) };

    fn next(&mut self) -> Option<Number> {
        let start = self.rest.iter().position(|byte| *byte != b' ')?;
        let word = &self.rest[start..];
        let end = word
            .iter()
            .position(|byte| *byte == b' ')
            .unwrap_or(word.len());
        let number = read_word(&word[..end])?;
        self.rest = &word[end..];
        Some(number)
    }
}
