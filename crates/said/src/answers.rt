// The answer of a lookup: its line, or the refusal.
ghost use Rattle.std.specs.Prelude.{◌≤◌, ℕ, List, length};
ghost use Rattle.text.specs.Wrote.{Wrote};
ghost use Rattle.lines.specs.Lines.{line_size, signed_line};
ghost use Rattle.said.specs.Said.{Told, answer_text, answer_words, litres_line, height_line};

use crate::Said;
use crate::refused::refused_said;
use lines::{figure_line, signed_line};
use measure::dip_height::DipHeight;
use measure::volume::Volume;
use refusal::Refusal;
use text::put::Writer;

// A value that is said in a line.
pub trait Line {
    ghost line: { Self → List ℕ };

    fn put_line(self, w: &mut Writer)
        ensures put { Wrote (line self) w.old w.new }
        ensures short { length (line self) ≤ line_size };
}

impl Line for Volume {
    ghost line = { litres_line };

    fn put_line(self, w: &mut Writer) {
        figure_line(w, self.units());
    }
}

impl Line for DipHeight {
    ghost line = { height_line };

    fn put_line(self, w: &mut Writer) {
        figure_line(w, self.units());
    }
}

// Litres delivered, with their sign.
impl Line for i64 {
    ghost line = { signed_line };

    fn put_line(self, w: &mut Writer) {
        signed_line(w, self);
    }
}

// `rows_said` and `file_said` stand by themselves, and not by a bound as this one: every line has the same room, a table has more, and a file
// what its caller lends.
pub fn answered<A: Line>(answer: Result<A, Refusal>, out: &mut [u8], err: &mut [u8]) -> Said
    ensures { Told line_size (answer_text A.line answer) (answer_words answer) out.old out.new err.old err.new result }
{
    match answer {
        Ok(a) => {
            let mut w = Writer { out, at: 0 };
            a.put_line(&mut w);
            Said { out: w.at, err: 0 }
        }
        Err(r) => refused_said(r, out, err),
    }
}
