// A long input through a short buffer: filled, worked through by whole lines, the rest moved to the front, filled again.
ghost use Rattle.std.specs.Prelude.{◌≡◌, ◌+◌, ◌<◌, ◌≤◌, IfOk, OnErr, length, take, drop, slice_range};
ghost use Rattle.std.specs.Io.{ReadsAtMost};
ghost use Rattle.std.specs.Io.KnownBytes.{Consumes, Keeps, IsAtEnd};
ghost use Rattle.cases.specs.Streams.{TakesSome};

use std::io;
use std::io::Read;

// One read: what it takes and what an error leaves.
fn read_some<R: Read>(input: &mut R, buffer: &mut [u8]) -> io::Result<usize>
    ensures bound { ReadsAtMost result buffer.new }
    ensures read { IfOk result (λ count. Consumes (R.remaining input.old) (R.remaining input.new) (take count buffer.new)) }
    ensures end { IfOk result (λ count. count ≡ 0 → 0 < length buffer.old → IsAtEnd (R.remaining input.new)) }
    ensures err { OnErr result (Keeps (R.remaining input.old) (R.remaining input.new)) }
{
    input.read(buffer)
}

// Reads on behind the first `filled` bytes, until the buffer is full or the input ends; how many are filled then.
pub fn fill<R: Read>(input: &mut R, buffer: &mut [u8], filled: usize) -> io::Result<usize>
    requires { filled ≤ length buffer.old }
    ensures count { IfOk result (λ count. (filled ≤ count) × (count ≤ length buffer.old)) }
    ensures kept { take filled buffer.new ≡ take filled buffer.old }
    ensures read { IfOk result (λ count. Consumes (R.remaining input.old) (R.remaining input.new) (drop filled (take count buffer.new))) }
    ensures err { OnErr result (TakesSome (R.remaining input.old) (R.remaining input.new)) }
    ensures end { IfOk result (λ count. count < length buffer.old → IsAtEnd (R.remaining input.new)) }
{
    let mut count = filled;
    while count < buffer.len() {
        let more = read_some(input, &mut buffer[count..])?;
        if more == 0 {
            break;
        }
        count += more;
    }
    Ok(count)
}

// How many bytes the whole lines at the front have: up to the last line end.
pub fn whole_lines(text: &[u8]) -> usize
    ensures { result ≤ length text.now }
{
    match text.iter().rposition(|byte| *byte == b'\n') {
        Some(last) => last + 1,
        None => 0,
    }
}

// How many bytes at the front can be worked through: the whole lines, or the last line if the input has ended before its line end. 0 if nothing
// is left, or if one line fills the buffer.
pub fn ready(buffer: &[u8], filled: usize) -> usize
    requires { filled ≤ length buffer.now }
    ensures { result ≤ filled }
{
    match whole_lines(&buffer[..filled]) {
        0 if filled < buffer.len() => filled,
        end => end,
    }
}

// Moves the bytes between two places to the front; how many there are.
pub fn to_front(buffer: &mut [u8], from: usize, to: usize) -> usize
    requires { (from ≤ to) × (to ≤ length buffer.old) }
    ensures count { result + from ≡ to }
    ensures front { take result buffer.new ≡ slice_range buffer.old from to }
{
    buffer.copy_within(from..to, 0);
    to - from
}
