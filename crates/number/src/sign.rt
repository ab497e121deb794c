// A number from its size and its sign.
ghost use Rattle.std.specs.Prelude.{◌≡◌, ◌^◌, ◌<◌};
ghost use Rattle.number.specs.MulDiv.{with_sign};

// n, or minus n.
pub fn signed(minus: bool, n: u64) -> i64
    requires { n < 2 ^ 63 }
    ensures { result ≡ with_sign minus n }
{
    let size = n as i64;
    if minus { -size } else { size }
}
