// The nearest quotient, an exact half to the even neighbour.
ghost use Rattle.std.specs.Prelude.{◌≡◌, ◌+◌, ◌*◌, ◌^◌, ◌<◌};
ghost use Rattle.laws.specs.Nearest.{nearest};

use std::cmp::Ordering;

// The whole number nearest to (quotient · divisor + rest) / divisor.
#[tactic(auto, using(laws::proofs::NearestLaws::nearest_of_less, laws::proofs::NearestLaws::nearest_of_more))]
pub fn round_rest(quotient: u64, rest: u64, divisor: u64) -> u64
    requires { (rest < divisor) × (quotient < 2 ^ 63) }
    ensures { result ≡ nearest (quotient * divisor + rest) divisor }
{
    let lack = divisor - rest;
    match rest.cmp(&lack) {
        Ordering::Less => quotient,
        Ordering::Greater => quotient + 1,
        Ordering::Equal => quotient + quotient % 2,
    }
}

// The whole number nearest to dividend / divisor.
pub fn nearest_quotient(dividend: u64, divisor: u64) -> u64
    requires { (0 < divisor) × (dividend < 2 ^ 63) }
    ensures { result ≡ nearest dividend divisor }
{
    round_rest(dividend / divisor, dividend % divisor, divisor)
}
