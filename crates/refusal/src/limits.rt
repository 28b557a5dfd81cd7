// The tests of a number: within its limits, and not far from another.
ghost use Rattle.std.specs.Prelude.{◌≡◌};
ghost use Rattle.refusal.specs.Test.{within, near};

// Whether a number is within its limits.
pub fn is_within(low: u64, x: u64, high: u64) -> bool
    ensures { result ≡ within low x high }
{
    (low..=high).contains(&x)
}

// Whether two numbers differ by no more than so much, either way.
pub fn is_near(x: u64, y: u64, most: u64) -> bool
    ensures { result ≡ near x y most }
{
    x.abs_diff(y) <= most
}
