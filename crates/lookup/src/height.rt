// The lowest height for a volume, by halving the heights that are left.
ghost use Rattle.std.specs.Prelude.{◌≡◌, ◌≤◌, Err};
ghost use Rattle.laws.specs.Exactly.{Exactly};
ghost use Rattle.measure.specs.Quantity.{volume_units};
ghost use Rattle.refusal.specs.Test.{refusal};
ghost use Rattle.lookup.specs.Table.{last_row};
ghost use Rattle.lookup.specs.Height.{height_for};
ghost use Rattle.lookup.specs.Answer.{height_answer, Reached, too_much, TooMuch};

use crate::table::SoundTable;
use measure::dip_height::DipHeight;
use measure::volume::Volume;
use refusal::{Refusal, limited};
use sentences::OF_VOLUME;

// The lowest height is one of low to high. Look at the middle, rounded down: it is above the middle if the litres there are too
// few, else the middle or below. Not `partition_point`: there is no slice of the heights, of which only some are rows.
#[tactic(auto, using(crate::proofs::HeightLaws::among_all, crate::proofs::HeightLaws::among_one, crate::proofs::HeightLaws::lowest_is))]
fn lowest(table: &SoundTable, w: u32) -> u32
    requires { w ≤ last_row table.now.schedule.dh table.now.schedule.step table.now.rows.now }
    ensures { result ≡ height_for table.now.schedule.dh table.now.schedule.step table.now.rows.now w }
{
    let mut low = 0;
    let mut high = table.schedule.dh;
    while low < high {
        let middle = low + (high - low) / 2;
        if table.litres(middle) < w {
            low = middle + 1;
        } else {
            high = middle;
        }
    }
    low
}

// On any table, for any volume: the whole answer; of a height, that it is the lowest with at least this volume; and that refusal 13,
// about the two, is given exactly for a volume above the last row. DH, step and rows as the caller has them, and as C hands them on.
#[tactic(auto, unfolding(crate::specs::Answer::height_answer))]
pub fn height_for(dh: u32, step: u32, table: &[u32], volume: Volume) -> Result<DipHeight, Refusal>
    ensures value { result ≡ height_answer dh step table.now (volume_units volume) }
    ensures reached { Reached dh step table.now (volume_units volume) result }
    ensures exactly { Exactly (result ≡ Err (refusal 13 0 (too_much (volume_units volume) (last_row dh step table.now)))) (TooMuch dh step table.now (volume_units volume)) }
{
    let sound = SoundTable::tested(dh, step, table)?;
    let w = volume.units();
    limited(13, 0, OF_VOLUME, 0, u64::from(w), 0..=sound.last())?;
    Ok(DipHeight::from(lowest(&sound, w)))
}
