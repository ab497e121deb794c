// Words of 32 bits in lent bytes, the least byte first: written, compared and read.
#![tactic(auto)]

ghost use Rattle.std.specs.Prelude.{◌≡◌, [], ◌∷◌, ◌+◌, ◌*◌, ◌^◌, ◌≤◌, length, set};
ghost use Rattle.whole.specs.Sizes.{Size};
ghost use Rattle.runs.specs.Runs.{Runs, Room, put, agree};
ghost use Rattle.words.specs.Words.{word_of, number_of, four_bytes, word_from, word_at};

pub mod numbers;

// The byte b at i, where i is inside the room; nothing past it.
pub fn put_byte(s: &mut [u8], i: usize, b: u8)
    ensures { s.new ≡ set s.old i b }
{
    if i < s.len() {
        s[i] = b;
    }
}

// One word, byte by byte, where the room may end within it. That no position wraps is a fact of a place and a word, so each call asks for it.
fn put_each(s: &mut [u8], at: usize, w: u32) -> usize
    requires { Room four_bytes at (w ∷ []) }
    ensures { Runs put four_bytes s.old at (w ∷ []) s.new result }
{
    let [a, b, c, d] = w.to_le_bytes();
    put_byte(s, at, a);
    put_byte(s, at + 1, b);
    put_byte(s, at + 2, c);
    put_byte(s, at + 3, d);
    at + 4
}

// One word, all of it inside the room.
pub fn place_word(s: &mut [u8], at: usize, w: u32)
    requires { at + 4 ≤ length s.old }
    ensures { Runs put four_bytes s.old at (w ∷ []) s.new (at + 4) }
{
    let [a, b, c, d] = w.to_le_bytes();
    s[at] = a;
    s[at + 1] = b;
    s[at + 2] = c;
    s[at + 3] = d;
}

// One word. Bytes past the room are not written; the position goes on all the same.
pub fn put_word(s: &mut [u8], at: usize, w: u32) -> usize
    requires { Room four_bytes at (w ∷ []) }
    ensures { Runs put four_bytes s.old at (w ∷ []) s.new result }
{
    let end = at + 4;
    if s.len() < end {
        return put_each(s, at, w);
    }
    place_word(s, at, w);
    end
}

// One byte more of a store compared: all before `ok` agrees, and b is due at the place `at`.
pub fn same_byte(s: &[u8], ok: usize, at: usize, b: u8) -> usize
    ensures { result ≡ agree s.now ok at b }
{
    if ok == at && at < s.len() && s[at] == b {
        ok + 1
    } else {
        ok
    }
}

// One word more compared, byte by byte.
fn same_each(s: &[u8], ok: usize, at: usize, w: u32) -> usize
    requires { Room four_bytes at (w ∷ []) }
    ensures { Runs (agree s.now) four_bytes ok at (w ∷ []) result (at + 4) }
{
    let [a, b, c, d] = w.to_le_bytes();
    let ok = same_byte(s, ok, at, a);
    let ok = same_byte(s, ok, at + 1, b);
    let ok = same_byte(s, ok, at + 2, c);
    same_byte(s, ok, at + 3, d)
}

// The word that begins at a byte.
pub fn word_from(s: &[u8], at: usize) -> u32
    requires { at + 4 ≤ length s.now }
    ensures { result ≡ word_from s.now at }
{
    u32::from_le_bytes([s[at], s[at + 1], s[at + 2], s[at + 3]])
}

// One word more compared: at once where all before it agrees and it does.
pub fn same_word(s: &[u8], ok: usize, at: usize, w: u32) -> usize
    requires { Room four_bytes at (w ∷ []) }
    ensures { Runs (agree s.now) four_bytes ok at (w ∷ []) result (at + 4) }
{
    let end = at + 4;
    if ok == at && end <= s.len() && word_from(s, at) == w {
        end
    } else {
        same_each(s, ok, at, w)
    }
}

// The i-th word.
pub fn word_at(s: &[u8], i: usize) -> u32
    requires { 4 * i + 4 ≤ length s.now }
    ensures { result ≡ word_at s.now i }
{
    word_from(s, 4 * i)
}

// The word of a number, in two's complement.
pub fn wide_bits(z: i64) -> u32
    requires { Size (2 ^ 31) z }
    ensures { result ≡ word_of z }
{
    (z.cast_unsigned() % 0x1_0000_0000) as u32
}

// The word of a number of 32 bits.
pub fn bits(z: i32) -> u32
    ensures { result ≡ word_of z }
{
    z.cast_unsigned()
}

// The number of a word.
pub fn signed(w: u32) -> i32
    ensures { result ≡ number_of w }
{
    w.cast_signed()
}
