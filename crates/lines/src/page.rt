// A page of bytes to print: a writer that is lent and appended to. Behind it a buffer stands, so that a number costs no write of its own. Where writing fails, what
// the page held stays at its front.
ghost use Rattle.std.specs.Prelude.{◌<◌, ◌≤◌, IfOk, OnOk, [], ◌∷◌, length, take};
ghost use Rattle.std.specs.Fmt.{decimal, signed_decimal};
ghost use Rattle.std.specs.Io.KnownBytes.{Appends, Keeps};
ghost use Rattle.lines.specs.Pages.{Grows};

use itoa::Buffer;
use std::io;
use std::io::{ErrorKind, Write};

// One byte.
pub fn byte<W: Write>(page: &mut W, value: u8) -> io::Result<()>
    ensures ok { OnOk result (Appends (W.contents page.old) (W.contents page.new) (value ∷ [])) }
    ensures grows { Grows (W.contents page.old) (W.contents page.new) }
{
    text(page, &[value])
}

// One write; how many bytes were taken, at least one of some.
fn write_some<W: Write>(page: &mut W, bytes: &[u8]) -> io::Result<usize>
    requires { 0 < length bytes.now }
    ensures some { IfOk result (λ count. (0 < count) × (count ≤ length bytes.now)) }
    ensures ok { IfOk result (λ count. Appends (W.contents page.old) (W.contents page.new) (take count bytes.now)) }
    ensures grows { Grows (W.contents page.old) (W.contents page.new) }
{
    let count = page.write(bytes)?;
    if count == 0 {
        return Err(io::Error::from(ErrorKind::WriteZero));
    }
    Ok(count)
}

// Each byte of a text. `write_all` does the same, but promises nothing of what an error leaves.
pub fn text<W: Write>(page: &mut W, bytes: &[u8]) -> io::Result<()>
    ensures ok { OnOk result (Appends (W.contents page.old) (W.contents page.new) bytes.now) }
    ensures grows { Grows (W.contents page.old) (W.contents page.new) }
{
    let mut rest = bytes;
    while !rest.is_empty() {
        let count = write_some(page, rest)?;
        rest = &rest[count..];
    }
    Ok(())
}

// A number in decimal digits.
pub fn unsigned<W: Write>(page: &mut W, value: u64) -> io::Result<()>
    ensures ok { OnOk result (Appends (W.contents page.old) (W.contents page.new) (decimal value)) }
    ensures grows { Grows (W.contents page.old) (W.contents page.new) }
{
    let mut digits = Buffer::new();
    text(page, digits.format(value).as_bytes())
}

// A number in decimal digits, after a minus if it is below 0.
pub fn signed<W: Write>(page: &mut W, value: i64) -> io::Result<()>
    ensures ok { OnOk result (Appends (W.contents page.old) (W.contents page.new) (signed_decimal value)) }
    ensures grows { Grows (W.contents page.old) (W.contents page.new) }
{
    let mut digits = Buffer::new();
    text(page, digits.format(value).as_bytes())
}

// A space.
pub fn space<W: Write>(page: &mut W) -> io::Result<()>
    ensures ok { OnOk result (Appends (W.contents page.old) (W.contents page.new) (32 ∷ [])) }
    ensures grows { Grows (W.contents page.old) (W.contents page.new) }
{
    byte(page, b' ')
}

// A line end.
pub fn line_end<W: Write>(page: &mut W) -> io::Result<()>
    ensures ok { OnOk result (Appends (W.contents page.old) (W.contents page.new) (10 ∷ [])) }
    ensures grows { Grows (W.contents page.old) (W.contents page.new) }
{
    byte(page, b'\n')
}

// Writes what the page is filled with.
pub fn finish<W: Write>(page: &mut W) -> io::Result<()>
    ensures { Keeps (W.contents page.old) (W.contents page.new) }
{
    page.flush()
}
