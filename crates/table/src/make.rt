// The call that makes a table from a survey.
ghost use Rattle.std.specs.Prelude.{◌≡◌, length};
ghost use Rattle.refusal.specs.Test.{verdict};
ghost use Rattle.survey.specs.Survey.{decoded, survey_in};
ghost use Rattle.rows.specs.Rows.{rows_in, cell_of};
ghost use Rattle.row_tests.specs.Tests.{table_tests};
ghost use Rattle.row_tests.specs.Left.{left_by};
ghost use Rattle.table.specs.Answer.{verdict_on, numbered, made, table_left};
ghost use Rattle.table.specs.Condition3.{EveryRow, NetRowAt, Condition3At};

use measure::diameter::Diameter;
use refusal::Refusal;
use row_tests::copy::test_and_copy;
use rows::{net_rows, rows_in, schedule_of};
use schedule::MOST_ROWS;
use survey::decode::{Survey, decode};

// What a table that is made has beside its rows: D1, D2 and how many rows there are.
#[derive(Clone, Copy)]
pub struct Made {
    pub d1: Diameter,
    pub d2: Diameter,
    pub rows: u32,
}

// A refusal's number and place, which is all of it that the answer keeps: the paper's numbers, as in `Refusal`.
#[derive(Clone, Copy)]
pub struct NumberedRefusal {
    pub number: u32,
    pub place: u32,
}

impl From<Refusal> for NumberedRefusal {
    ghost from_gives = { λ r n. n ≡ numbered r };

    fn from(r: Refusal) -> NumberedRefusal {
        NumberedRefusal {
            number: r.number,
            place: r.place,
        }
    }
}

// The rows of a survey that is not refused into the table: worked out apart, tested, and copied last.
// `judge` works them out in the same three lines: one function for both would lend the rows to what comes last, which writes here and does not there.
#[tactic(auto, using(schedule::specs::RowsLaws::few_rows))]
fn fill(v: Survey, table: &mut [u32]) -> Result<(), Refusal>
    ensures value { result ≡ verdict (table_tests v (length table.old)) }
    ensures table_after { table.new ≡ left_by result (cell_of v) (rows_in v) table.old }
{
    let schedule = schedule_of(v);
    let mut net = [0i64; MOST_ROWS];
    net_rows(v, &mut net);
    test_and_copy(&net, schedule, table)
}

// The verdict on a decoded file and its rows, with what it is about, and the rows in the table where nothing is refused.
pub fn filled(file: Result<Survey, Refusal>, table: &mut [u32]) -> Result<(), Refusal>
    ensures value { result ≡ verdict_on file (length table.old) }
    ensures table_after { table.new ≡ table_left file table.old }
{
    fill(file?, table)
}

// From a decoded file and any table: the whole answer, what the table holds afterwards, and of every row that was written that it is
// the net row, and condition 3.
pub fn tabulate(file: Result<Survey, Refusal>, table: &mut [u32]) -> Result<Made, NumberedRefusal>
    ensures value { result ≡ made file (length table.old) }
    ensures table_after { table.new ≡ table_left file table.old }
    ensures net_rows { EveryRow NetRowAt (survey_in file) result table.new }
    ensures condition3 { EveryRow Condition3At (survey_in file) result table.new }
{
    let v = file?;
    fill(v, table)?;
    let rows = rows_in(v) as u32;
    Ok(Made {
        d1: v.tank.d1,
        d2: v.tank.d2,
        rows,
    })
}

// From any bytes and any table.
pub fn make_table(survey: &[u8], table: &mut [u32]) -> Result<Made, NumberedRefusal>
    ensures value { result ≡ made (decoded survey.now) (length table.old) }
    ensures table_after { table.new ≡ table_left (decoded survey.now) table.old }
    ensures net_rows { EveryRow NetRowAt (survey_in (decoded survey.now)) result table.new }
    ensures condition3 { EveryRow Condition3At (survey_in (decoded survey.now)) result table.new }
{
    tabulate(decode(survey), table)
}
