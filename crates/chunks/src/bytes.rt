// Bytes of a chunk laid from a place on: zeros, bytes from further up, lent bytes.
ghost use Rattle.std.specs.Prelude.{◌≡◌, ◌+◌, ◌≤◌, length, take, drop, replicate};
ghost use Rattle.runs.specs.Runs.{over, put};

// n zeros.
pub fn clear_bytes(s: &mut [u8], at: usize, n: usize)
    requires { at + n ≤ length s.old }
    ensures { s.new ≡ over put s.old at (replicate n 0) }
{
    s[at..at + n].fill(0);
}

// n bytes down from further up.
pub fn slide_bytes(s: &mut [u8], from: usize, at: usize, n: usize)
    requires { (at ≤ from) × (from + n ≤ length s.old) }
    ensures { s.new ≡ over put s.old at (take n (drop from s.old)) }
{
    s.copy_within(from..from + n, at);
}

// All of the lent bytes, one by one: of `copy_from_slice` the compiler makes memmove.
pub fn copy_bytes(s: &mut [u8], at: usize, made: &[u8])
    requires { at + length made.now ≤ length s.old }
    ensures { s.new ≡ over put s.old at made.now }
{
    for (j, &byte) in made.iter().enumerate() {
        s[at + j] = byte;
    }
}
