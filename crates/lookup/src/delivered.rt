// The litres delivered between two dips: what the second height holds more than the first, with its sign.
ghost use Rattle.std.specs.Prelude.{◌≡◌, max, Err};
ghost use Rattle.laws.specs.Exactly.{Exactly};
ghost use Rattle.measure.specs.Quantity.{dip_units};
ghost use Rattle.refusal.specs.Test.{refusal};
ghost use Rattle.lookup.specs.Answer.{too_high, TooHigh};
ghost use Rattle.lookup.specs.Delivered.{delivered_answer, ReadOffBoth, higher};

use crate::litres::litres_at;
use measure::dip_height::DipHeight;
use refusal::Refusal;

// On any table, between any two heights: the whole answer, which is in v and below zero where the second height holds less; of litres, that
// they are the difference of two volumes on the table, at these heights; and that refusal 12, about the first of them that is above DH, is
// given exactly when the higher of the two is.
#[tactic(auto, using(crate::proofs::DeliveredLaws::exactly_told), unfolding(crate::specs::Delivered::delivered_answer))]
pub fn delivered(
    dh: u32,
    step: u32,
    table: &[u32],
    before: DipHeight,
    after: DipHeight,
) -> Result<i64, Refusal>
    ensures value { result ≡ delivered_answer dh step table.now (dip_units before) (dip_units after) }
    ensures read_off_both { ReadOffBoth dh step table.now (dip_units before) (dip_units after) result }
    ensures exactly { Exactly (result ≡ Err (refusal 12 0 (too_high (higher dh (dip_units before) (dip_units after)) dh))) (TooHigh dh step table.now (max (dip_units before) (dip_units after))) }
{
    let first = litres_at(dh, step, table, before)?;
    let second = litres_at(dh, step, table, after)?;
    Ok(i64::from(second.units()) - i64::from(first.units()))
}
