// A sign put on a size.
ghost use Rattle.std.specs.Prelude.{◌≡◌};
ghost use Rattle.laws.specs.Signed.{with_sign};

// n with the sign of z.
// Not by std's `signum`, which is 0 of 0: here 0 has no minus, and n stays.
pub fn with_sign(z: i64, n: u32) -> i64
    ensures { result ≡ with_sign z n }
{
    let n = i64::from(n);
    if z < 0 { -n } else { n }
}
