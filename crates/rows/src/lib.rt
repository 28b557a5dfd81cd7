// The rows of a survey's table: how many, and the net volumes, worked out from the bottom up. The caller's table is not touched here.
#![tactic(auto)]

ghost use Rattle.std.specs.Prelude.{◌≡◌, ◌++◌, ℕ, ◌^◌, ◌≤◌, ◌<◌, length, drop};
ghost use Rattle.laws.specs.Fill.{rows_of};
ghost use Rattle.measure.specs.Diameter.{largest};
ghost use Rattle.measure.specs.Quantity.{dip_units, diameter_units};
ghost use Rattle.schedule.specs.Rows.{smallest_step, most_rows};
ghost use Rattle.tank.specs.FillingLaws.{filling_at};
ghost use Rattle.rows.specs.Rows.{rows_in, net_at, net_row};
ghost use Rattle.rows.specs.RowLaws.{cell_in};

use deadwood::sum::sum_of_shares;
use measure::dip_height::DipHeight;
use schedule::Schedule;
use survey::decode::Survey;
use tank::filling::Filling;

// Where the rows stand, within the limits of a diameter and of a step.
pub fn schedule_of(survey: Survey) -> Schedule
    ensures { (result.dh ≡ diameter_units survey.tank.dh) × (result.step ≡ survey.step) × (result.dh ≤ largest) × (smallest_step ≤ result.step) }
{
    Schedule {
        dh: survey.tank.dh.units(),
        step: survey.step,
    }
}

// The number of rows.
#[tactic(auto, using(schedule::specs::RowsLaws::few_rows))]
pub fn rows_in(survey: Survey) -> usize
    ensures { (result ≡ rows_in survey) × (result ≤ most_rows) }
{
    schedule_of(survey).rows()
}

// Gross less all shares, at a dip height that the tank is filled to.
fn net_at(survey: &Survey, filling: Filling, h: DipHeight) -> i64
    requires { filling ≡ filling_at survey.now.tank (dip_units h) }
    ensures { result ≡ net_at survey.now (dip_units h) }
{
    i64::from(filling.gross(survey.tank, h).units()) - sum_of_shares(survey.deadwood(), h)
}

// The net rows into the front of `out`. Each fits a cell. Over indices: the law that carries the loop (`Filled`) is about the index.
#[tactic(auto, using(laws::specs::FillLaws::filled_none))]
pub fn net_rows(survey: Survey, out: &mut [i64])
    requires { rows_in survey ≤ length out.old }
    ensures rows { out.new ≡ rows_of (net_row survey) (rows_in survey) ++ drop (rows_in survey) out.old }
    ensures fit_cells { (i : ℕ) → i < rows_in survey → cell_in out.new i < 2 ^ 32 }
{
    let schedule = schedule_of(survey);
    let rows = rows_in(survey);
    let tank = survey.tank;
    let mut filling = Filling::empty();
    for i in 0..rows {
        let h = schedule.height(i);
        filling = filling.on_to(tank, h);
        out[i] = net_at(&survey, filling, h);
    }
}
