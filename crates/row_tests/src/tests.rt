// Refusals 8 and 9, on net rows in memory.
ghost use Rattle.std.specs.Prelude.{◌≡◌, ◌^◌, ◌≤◌, ◌<◌, length};
ghost use Rattle.refusal.specs.Test.{verdict};
ghost use Rattle.schedule.specs.Rows.{row_count, row_height};
ghost use Rattle.rows.specs.RowLaws.{net_of};
ghost use Rattle.row_tests.specs.Tests.{keeps_up, fall_test, row_tests};

use refusal::{Refusal, about_of, one_test};
use schedule::Schedule;
use sentences::{OF_FALLING_ROW, OF_LENT_TABLE};

// Row i is not below the row before.
fn keeps_up(net: &[i64], i: usize) -> bool
    requires { i < length net.now }
    ensures { result ≡ keeps_up (net_of net.now) i }
{
    i == 0 || net[i - 1] <= net[i]
}

// Refusal 9 of row i, whose height is told. The rows and where they stand are handed on side by side: in a struct the rows would be a borrow, of which a
// clause knows two moments.
fn fall_tested(net: &[i64], schedule: Schedule, i: usize) -> Result<(), Refusal>
    requires { (i < length net.now) × (i < 2 ^ 32) × (i < row_count schedule.dh schedule.step) }
    ensures { result ≡ verdict (fall_test (net_of net.now) (row_height schedule.dh schedule.step) i) }
{
    let height = u64::from(schedule.height(i).units());
    let about = about_of(OF_FALLING_ROW, i as u32, height, 0..=0);
    one_test(9, i as u32, keeps_up(net, i), about)
}

// Refusals 8 and 9 of the rows at the front of `net`, for a lent table of so many cells. None need be tested for being below zero: at height 0 nothing
// is deducted, and a later row would have fallen.
#[tactic(auto, using(crate::proofs::Room::room_short, refusal::specs::TestLaws::passed_next), unfolding(crate::specs::Tests::row_tests, refusal::specs::Test::items))]
pub fn rows_tested(net: &[i64], schedule: Schedule, cells: usize) -> Result<(), Refusal>
    requires { (row_count schedule.dh schedule.step ≤ length net.now) × (row_count schedule.dh schedule.step < 2 ^ 32) }
    ensures { result ≡ verdict (row_tests (net_of net.now) (row_height schedule.dh schedule.step) (row_count schedule.dh schedule.step) cells) }
{
    let about = about_of(OF_LENT_TABLE, 0, 0, 0..=0);
    let rows = schedule.rows();
    one_test(8, 0, rows <= cells, about)?;
    for i in 0..rows {
        fall_tested(net, schedule, i)?;
    }
    Ok(())
}
