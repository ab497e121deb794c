// Products of 64-bit numbers in 128 bits, which the compiler makes one instruction of.
ghost use Rattle.std.specs.Prelude.{◌≡◌, ◌+◌, ◌*◌, ◌^◌, ◌<◌, ◌≤◌};

// a * b.
pub fn product(a: u64, b: u64) -> u128
    ensures { result ≡ a * b }
{
    u128::from(a) * u128::from(b)
}

// The upper limb of a * b.
pub fn high(a: u64, b: u64) -> u64
    ensures { (result * 2 ^ 64 ≤ a * b) × (a * b < result * 2 ^ 64 + 2 ^ 64) }
{
    (product(a, b) >> 64) as u64
}
