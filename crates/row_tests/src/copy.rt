// Net rows that are tested and then copied to the front of a lent table, once nothing is left to refuse.
ghost use Rattle.std.specs.Prelude.{◌≡◌, ◌++◌, ℕ, ◌^◌, ◌≤◌, ◌<◌, length, drop};
ghost use Rattle.laws.specs.Fill.{rows_of};
ghost use Rattle.refusal.specs.Test.{verdict};
ghost use Rattle.schedule.specs.Rows.{row_count, row_height};
ghost use Rattle.rows.specs.RowLaws.{net_of, cell_in};
ghost use Rattle.row_tests.specs.Tests.{row_tests};
ghost use Rattle.row_tests.specs.Left.{left_by};

use crate::tests::rows_tested;
use refusal::Refusal;
use schedule::Schedule;

// The rows fit their cells. Over indices: the law that carries the loop (`Filled`) is about the index.
#[tactic(auto, using(laws::specs::FillLaws::filled_none))]
fn copy_rows(net: &[i64], table: &mut [u32])
    requires { (length net.now ≤ length table.old) × ((i : ℕ) → i < length net.now → cell_in net.now i < 2 ^ 32) }
    ensures { table.new ≡ rows_of (cell_in net.now) (length net.now) ++ drop (length net.now) table.old }
{
    for i in 0..net.len() {
        table[i] = net[i].unsigned_abs() as u32;
    }
}

// Refusals 8 and 9 on the rows at the front of `net`; a table that is refused is not touched.
pub fn test_and_copy(net: &[i64], schedule: Schedule, table: &mut [u32]) -> Result<(), Refusal>
    requires { (row_count schedule.dh schedule.step ≤ length net.now) × (row_count schedule.dh schedule.step < 2 ^ 32) × ((i : ℕ) → i < row_count schedule.dh schedule.step → cell_in net.now i < 2 ^ 32) }
    ensures value { result ≡ verdict (row_tests (net_of net.now) (row_height schedule.dh schedule.step) (row_count schedule.dh schedule.step) (length table.old)) }
    ensures table_after { table.new ≡ left_by result (cell_in net.now) (row_count schedule.dh schedule.step) table.old }
{
    let rows = schedule.rows();
    rows_tested(net, schedule, table.len())?;
    copy_rows(&net[..rows], table);
    Ok(())
}
