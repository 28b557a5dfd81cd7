// Litres at a height.
ghost use Rattle.std.specs.Prelude.{◌≡◌, Err};
ghost use Rattle.laws.specs.Exactly.{Exactly};
ghost use Rattle.measure.specs.Quantity.{dip_units};
ghost use Rattle.refusal.specs.Test.{refusal};
ghost use Rattle.lookup.specs.Answer.{litres_answer, ReadOff, too_high, TooHigh};

use crate::table::SoundTable;
use measure::dip_height::DipHeight;
use measure::volume::Volume;
use refusal::{Refusal, limited};
use sentences::OF_HEIGHT;

// On any table, at any height: the whole answer; of a volume, that it is the row at a row's height, else on the line between the rows
// below and above, and never falls with the height; and that refusal 12, about the two, is given exactly for a height above DH.
// DH, step and rows as the caller has them, a step of 0 too, and as C hands them on: what is sound is tested here.
#[tactic(auto, using(crate::proofs::AnswerLaws::on_table_told), unfolding(crate::specs::Answer::litres_answer))]
pub fn litres_at(dh: u32, step: u32, table: &[u32], height: DipHeight) -> Result<Volume, Refusal>
    ensures value { result ≡ litres_answer dh step table.now (dip_units height) }
    ensures read_off { ReadOff dh step table.now (dip_units height) result }
    ensures exactly { Exactly (result ≡ Err (refusal 12 0 (too_high (dip_units height) dh))) (TooHigh dh step table.now (dip_units height)) }
{
    let sound = SoundTable::tested(dh, step, table)?;
    let h = height.units();
    limited(12, 0, OF_HEIGHT, 0, u64::from(h), 0..=dh)?;
    Ok(Volume::from(sound.litres(h)))
}
