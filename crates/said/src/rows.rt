// A table: the line of the row count, and a line for each row; or its refusal. A memory of OUT_SIZE and one of ERR_SIZE bytes have room for
// all of it.
ghost use Rattle.std.specs.Prelude.{◌≡◌, ◌*◌, ◌≤◌, length};
ghost use Rattle.text.specs.Put.{Says};
ghost use Rattle.text.specs.Wrote.{Wrote};
ghost use Rattle.lines.specs.Lines.{row_size};
ghost use Rattle.said.specs.Said.{Told, answer_text, answer_words, out_size, rows_text, Whole, whole_text};

use crate::refused::refused_said;
use crate::{OUT_SIZE, Said};
use lines::{row_line, rows_line};
use refusal::Refusal;
use schedule::Schedule;
use text::put::Writer;

// The rows of a table, with the dip point's height and the step that they are made for: as many as there are by these.
#[derive(Clone, Copy)]
pub struct Rows<'a> {
    pub dh: u32,
    pub step: u32,
    pub cells: &'a [u32],
    pub ghost all_there: { Whole dh step (length cells.now) cells.now },
}

impl Rows<'_> {
    ghost use Rattle.said.specs.Rows.{lent_text};

    // The lines of the rows, behind what stands there.
    #[tactic(auto, using(text::specs::WroteLaws::wrote_nothing), unfolding(crate::specs::Said::rows_text))]
    fn put_rows(self, w: &mut Writer)
        ensures put { Wrote (rows_text self.entry.dh self.entry.step self.entry.cells.now (length self.entry.cells.now)) w.old w.new }
        ensures short { length (rows_text self.entry.dh self.entry.step self.entry.cells.now (length self.entry.cells.now)) ≤ length self.entry.cells.now * row_size }
    {
        let schedule = Schedule {
            dh: self.dh,
            step: self.step,
        };
        for (i, cell) in self.cells.iter().enumerate() {
            row_line(w, schedule.height(i).units(), *cell);
        }
    }

    fn put(self, out: &mut [u8]) -> usize
        ensures says { Says out_size (lent_text self.entry) out.old out.new result }
        ensures out_room { OUT_SIZE ≡ out_size }
    {
        let mut w = Writer { out, at: 0 };
        rows_line(&mut w, self.cells.len() as u32);
        self.put_rows(&mut w);
        w.at
    }
}

pub fn rows_said(table: Result<Rows<'_>, Refusal>, out: &mut [u8], err: &mut [u8]) -> Said
    ensures { Told out_size (answer_text (λ t. whole_text t.dh t.step t.cells.now (length t.cells.now)) table.entry) (answer_words table.entry) out.old out.new err.old err.new result }
{
    match table {
        Ok(rows) => Said {
            out: rows.put(out),
            err: 0,
        },
        Err(r) => refused_said(r, out, err),
    }
}
