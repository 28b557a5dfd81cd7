// The table of a survey file, a line for each row; or its refusal.
ghost use Rattle.refusal.specs.Test.{verdict_in};
ghost use Rattle.survey.specs.Survey.{decoded};
ghost use Rattle.survey_lookup.specs.Tabled.{tabled};
ghost use Rattle.said.specs.Said.{Told, verdict_words, out_size};
ghost use Rattle.report.specs.Report.{table_text};

use said::Said;
use said::rows::{Rows, rows_said};
use survey_lookup::table_of;

// What is said of a survey file. A memory of said's OUT_SIZE and one of its ERR_SIZE bytes have room for all of it.
pub fn table_said(survey: &[u8], out: &mut [u8], err: &mut [u8]) -> Said
    ensures { Told out_size (table_text (tabled (decoded survey.now))) (verdict_words (verdict_in (tabled (decoded survey.now)))) out.old out.new err.old err.new result }
{
    match table_of(survey) {
        Ok(t) => {
            let rows = Rows {
                dh: t.dh,
                step: t.step,
                cells: t.own_rows(),
            };
            rows_said(Ok(rows), out, err)
        }
        Err(r) => rows_said(Err(r), out, err),
    }
}
