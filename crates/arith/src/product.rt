// A product that passes 64 bits, divided exactly: the product is never formed, only its quotient and its rest.
ghost use Rattle.std.specs.Prelude.{◌≡◌, ◌+◌, ◌*◌, ◌^◌, ◌≤◌, ◌<◌};
ghost use Rattle.laws.specs.Nearest.{nearest};
ghost use Rattle.arith.specs.QuotientLaws.{Divided};

use crate::nearest::round_rest;

// A number kept as quotient · divisor + rest, for a divisor that goes beside it.
#[derive(Clone, Copy)]
pub struct Quotient {
    pub quotient: u64,
    pub rest: u64,
}

// The same number with `more` added to its rest, which may carry one divisor over to the quotient.
pub fn carried(q: Quotient, more: u64, divisor: u64) -> Quotient
    requires { (q.rest < divisor) × (more ≤ divisor) × (divisor ≤ 2 ^ 63) × (q.quotient + 1 < 2 ^ 64) }
    ensures { Divided (q.quotient * divisor + q.rest + more) divisor result.quotient result.rest }
{
    let rest = q.rest + more;
    if divisor <= rest {
        Quotient {
            quotient: q.quotient + 1,
            rest: rest - divisor,
        }
    } else {
        Quotient {
            quotient: q.quotient,
            rest,
        }
    }
}

// factor · other by divisor, from the upper bits of factor down: twice the half's quotient and rest, and once more `other`
// where factor is odd.
fn divided(factor: u64, other: u64, divisor: u64) -> Quotient
    requires { (other < divisor) × (divisor ≤ 2 ^ 63) }
    ensures { Divided (factor * other) divisor result.quotient result.rest }
{
    if factor == 0 {
        return Quotient {
            quotient: 0,
            rest: 0,
        };
    }
    let half = divided(factor / 2, other, divisor);
    let doubled = carried(
        Quotient {
            quotient: 2 * half.quotient,
            rest: half.rest,
        },
        half.rest,
        divisor,
    );
    carried(doubled, factor % 2 * other, divisor)
}

// The whole number nearest to factor · other / divisor. With `other` below the divisor the result fits.
pub fn nearest_of_product(factor: u64, other: u64, divisor: u64) -> u64
    requires { (other < divisor) × (divisor ≤ 2 ^ 63) × (factor < 2 ^ 63) }
    ensures { result ≡ nearest (factor * other) divisor }
{
    let q = divided(factor, other, divisor);
    round_rest(q.quotient, q.rest, divisor)
}
