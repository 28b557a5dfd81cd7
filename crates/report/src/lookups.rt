// A lookup on the table of a survey file: its answer, or the refusal of the file or of what was asked for. A memory of said's LINE_SIZE and
// one of its ERR_SIZE bytes have room for all that is said.
// Three functions, since each asks another question and promises another text; what they share is `answered`.
ghost use Rattle.survey_lookup.specs.Answer.{litres_in, height_in, delivered_in};
ghost use Rattle.lines.specs.Lines.{line_size};
ghost use Rattle.said.specs.Said.{Told, litres_text, litres_words, height_text, height_words, delivered_text, delivered_words};

use measure::dip_height::DipHeight;
use measure::volume::Volume;
use refusal::Refusal;
use said::Said;
use said::answers::answered;
use survey_lookup::{Tabled, delivered_in, height_in, litres_in};

// The litres at a dip height.
pub fn litres_said(t: Result<Tabled, Refusal>, asked: u32, out: &mut [u8], err: &mut [u8]) -> Said
    ensures { Told line_size (litres_text (litres_in t asked)) (litres_words (litres_in t asked)) out.old out.new err.old err.new result }
{
    answered(litres_in(t, DipHeight::from(asked)), out, err)
}

// The lowest dip height for a volume.
pub fn height_said(t: Result<Tabled, Refusal>, asked: u32, out: &mut [u8], err: &mut [u8]) -> Said
    ensures { Told line_size (height_text (height_in t asked)) (height_words (height_in t asked)) out.old out.new err.old err.new result }
{
    answered(height_in(t, Volume::from(asked)), out, err)
}

// The litres at the second dip height less those at the first.
pub fn delivered_said(
    t: Result<Tabled, Refusal>,
    before: u32,
    after: u32,
    out: &mut [u8],
    err: &mut [u8],
) -> Said
    ensures { Told line_size (delivered_text (delivered_in t before after)) (delivered_words (delivered_in t before after)) out.old out.new err.old err.new result }
{
    let answer = delivered_in(t, DipHeight::from(before), DipHeight::from(after));
    answered(answer, out, err)
}
