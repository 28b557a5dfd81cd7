// Whether a file's table can be made by whoever has room for so many rows. Nothing is written.
ghost use Rattle.std.specs.Prelude.{◌≡◌};
ghost use Rattle.refusal.specs.Test.{verdict};
ghost use Rattle.row_tests.specs.Tests.{table_tests};
ghost use Rattle.table.specs.Answer.{verdict_on};

use refusal::Refusal;
use row_tests::tests::rows_tested;
use rows::{net_rows, schedule_of};
use schedule::MOST_ROWS;
use survey::decode::Survey;

#[tactic(auto, using(schedule::specs::RowsLaws::few_rows))]
fn rows_judged(v: Survey, cells: usize) -> Result<(), Refusal>
    ensures { result ≡ verdict (table_tests v cells) }
{
    let schedule = schedule_of(v);
    let mut net = [0i64; MOST_ROWS];
    net_rows(v, &mut net);
    rows_tested(&net, schedule, cells)
}

// Refusals 1 to 9 and 14, for a lent table of so many cells.
pub fn judged(file: Result<Survey, Refusal>, cells: usize) -> Result<(), Refusal>
    ensures { result ≡ verdict_on file cells }
{
    rows_judged(file?, cells)
}
