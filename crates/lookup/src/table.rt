// A lent table that may be looked up in, whoever made it: refusal 11 is given exactly where there is none.
ghost use Rattle.std.specs.Prelude.{◌≡◌, ◌≤◌, true, false, MatchResult};
ghost use Rattle.refusal.specs.Test.{refusal};
ghost use Rattle.lookup.specs.Table.{last_row, never_falls, sound_table};
ghost use Rattle.lookup.specs.Litres.{litres};
ghost use Rattle.lookup.specs.Answer.{unsound};

use crate::line::on_line;
use measure::diameter::Diameter;
use refusal::{Refusal, about_of, one_test};
use schedule::{LARGEST_STEP, SMALLEST_STEP, Schedule};
use sentences::OF_TABLE;

// No row is below the row before.
fn never_falls(rows: &[u32]) -> bool
    ensures { result ≡ never_falls rows.now }
{
    rows.is_sorted()
}

// DH and step within their limits, exactly the row count, and no row below the row before.
#[tactic(auto, unfolding(crate::specs::Table::sound_table))]
fn is_sound(dh: u32, step: u32, rows: &[u32]) -> bool
    ensures { result ≡ sound_table dh step rows.now }
{
    if !(Diameter::SMALLEST..=Diameter::LARGEST).contains(&dh) {
        return false;
    }
    if !(SMALLEST_STEP..=LARGEST_STEP).contains(&step) {
        return false;
    }
    rows.len() == Schedule { dh, step }.rows() && never_falls(rows)
}

// The rows, and where they stand. No type for `said` too: the rows that are said need not be sound, only all there.
#[derive(Clone, Copy)]
pub struct SoundTable<'a> {
    pub schedule: Schedule,
    pub rows: &'a [u32],
    ghost sound: { sound_table schedule.dh schedule.step rows.now ≡ true },
}

impl<'a> SoundTable<'a> {
    // Refusal 11, of a table that is not sound.
    #[tactic(auto, using(crate::specs::TableLaws::sound))]
    pub fn tested(dh: u32, step: u32, rows: &'a [u32]) -> Result<SoundTable<'a>, Refusal>
        ensures { MatchResult result (λ t. (t.schedule.dh ≡ dh) × (t.schedule.step ≡ step) × (t.rows.now ≡ rows.now)) (λ r. (sound_table dh step rows.now ≡ false) × (r ≡ refusal 11 0 (unsound dh step))) }
    {
        let about = about_of(OF_TABLE, dh, u64::from(step), 0..=0);
        one_test(11, 0, is_sound(dh, step, rows), about)?;
        Ok(SoundTable {
            schedule: Schedule { dh, step },
            rows,
        })
    }

    // The row at DH.
    #[tactic(auto, using(crate::specs::TableLaws::sound, schedule::specs::RowsLaws::count_pos))]
    pub fn last(&self) -> u32
        ensures { result ≡ last_row self.now.schedule.dh self.now.schedule.step self.now.rows.now }
    {
        self.rows[self.rows.len() - 1]
    }

    // The litres at a height within the tank.
    #[tactic(auto, using(crate::specs::TableLaws::sound, schedule::specs::RowsLaws::inside_count, schedule::specs::RowsLaws::inside_below, schedule::specs::RowsLaws::inside_above, schedule::specs::RowsLaws::gap_at_most))]
    pub fn litres(&self, h: u32) -> u32
        requires { h ≤ self.now.schedule.dh }
        ensures { result ≡ litres self.now.schedule.dh self.now.schedule.step self.now.rows.now h }
    {
        if h == self.schedule.dh {
            return self.last();
        }
        let i = (h / self.schedule.step) as usize;
        let low = self.schedule.height(i).units();
        let high = self.schedule.height(i + 1).units();
        on_line(self.rows, i, h - low, high - low)
    }
}
