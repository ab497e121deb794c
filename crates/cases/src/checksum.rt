// The checksum of lent memory: from 0, each entry as its 32-bit pattern by h = (h * 257 + entry) mod 4294967291.
ghost use Rattle.std.specs.Prelude.{◌^◌, ◌<◌};

// A number's 32-bit pattern.
fn pattern(entry: i64) -> u64
    ensures { result < 2 ^ 32 }
{
    entry.cast_unsigned() % 0x1_0000_0000
}

// The checksum of numbers or bytes.
pub fn of<E: Copy + Into<i64>>(memory: &[E]) -> u64 {
    let mut sum: u64 = 0;
    for entry in memory {
        sum = (sum * 257 + pattern((*entry).into())) % 4294967291;
    }
    sum
}
