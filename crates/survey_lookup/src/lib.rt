// A survey file's own table, made once in memory that goes with the answer, and the lookups on it: as many as are asked for.
#![tactic(auto)]

ghost use Rattle.std.specs.Prelude.{◌≡◌};
ghost use Rattle.measure.specs.Quantity.{dip_units, volume_units};
ghost use Rattle.survey.specs.Survey.{decoded};
ghost use Rattle.survey_lookup.specs.Answer.{litres_in, litres_from, ReadOffOwn, height_in, height_from, ReachedOwn, delivered_in, delivered_from, ReadOffBothOwn, AsFromFile};
ghost use Rattle.survey_lookup.specs.Tabled.{own_rows, tabled};

use lookup::delivered::delivered;
use lookup::height::height_for;
use lookup::litres::litres_at;
use measure::dip_height::DipHeight;
use measure::volume::Volume;
use refusal::Refusal;
use rows::{rows_in, schedule_of};
use schedule::MOST_ROWS;
use survey::decode::decode;
use table::make::filled;

// A survey's table with what a lookup takes beside it. With no heap the memory has room for the most rows, and counts its own. No invariant: the lookups
// below promise their answer of whatever one holds.
#[derive(Clone, Copy)]
pub struct Tabled {
    pub dh: u32,
    pub step: u32,
    pub rows: usize,
    pub table: [u32; MOST_ROWS],
}

impl Tabled {
    // The rows at the front of the memory; all of it where it has no more.
    pub fn own_rows(&self) -> &[u32]
        ensures { result.now ≡ own_rows self.now }
    {
        &self.table[..self.rows.min(MOST_ROWS)]
    }
}

// The table of a survey file, or the refusal.
#[tactic(auto, unfolding(crate::specs::Tabled::tabled, crate::specs::Tabled::no_rows))]
pub fn table_of(survey: &[u8]) -> Result<Tabled, Refusal>
    ensures { result ≡ tabled (decoded survey.now) }
{
    let v = decode(survey)?;
    let mut table = [0u32; MOST_ROWS];
    filled(Ok(v), &mut table)?;
    let schedule = schedule_of(v);
    Ok(Tabled {
        dh: schedule.dh,
        step: schedule.step,
        rows: rows_in(v),
        table,
    })
}

// The three lookups are functions of their own: each promises another thing of the table outright, and what they share is a line.

// The litres at a dip height, on a table in hand: the whole answer, whatever that holds; and that on the table of a survey file it is the
// answer from the file, which is the first refusal, the survey's, the table's or the lookup's, or what stands on the survey's own table.
#[tactic(auto, unfolding(crate::specs::Answer::litres_in))]
pub fn litres_in(t: Result<Tabled, Refusal>, height: DipHeight) -> Result<Volume, Refusal>
    ensures value { result ≡ litres_in t (dip_units height) }
    ensures as_from_file { AsFromFile (λ file. litres_from file (dip_units height)) (λ v. ReadOffOwn v (dip_units height)) t result }
{
    let t = t?;
    litres_at(t.dh, t.step, t.own_rows(), height)
}

// The lowest dip height at which the tank holds a volume, in the same way.
#[tactic(auto, unfolding(crate::specs::Answer::height_in))]
pub fn height_in(t: Result<Tabled, Refusal>, volume: Volume) -> Result<DipHeight, Refusal>
    ensures value { result ≡ height_in t (volume_units volume) }
    ensures as_from_file { AsFromFile (λ file. height_from file (volume_units volume)) (λ v. ReachedOwn v (volume_units volume)) t result }
{
    let t = t?;
    height_for(t.dh, t.step, t.own_rows(), volume)
}

// The litres delivered between two dips, in the same way.
#[tactic(auto, unfolding(crate::specs::Answer::delivered_in))]
pub fn delivered_in(
    t: Result<Tabled, Refusal>,
    before: DipHeight,
    after: DipHeight,
) -> Result<i64, Refusal>
    ensures value { result ≡ delivered_in t (dip_units before) (dip_units after) }
    ensures as_from_file { AsFromFile (λ file. delivered_from file (dip_units before) (dip_units after)) (λ v. ReadOffBothOwn v (dip_units before) (dip_units after)) t result }
{
    let t = t?;
    delivered(t.dh, t.step, t.own_rows(), before, after)
}
