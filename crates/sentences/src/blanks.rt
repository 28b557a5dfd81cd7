// Sentences with blanks, a line each of one text: the line is found, and its blanks are filled in as it is put into lent memory.
ghost use Rattle.std.specs.Prelude.{◌≡◌, true, false};
ghost use Rattle.text.specs.Wrote.{Wrote};
ghost use Rattle.sentences.specs.Blanks.{signed, filled_in, filled};
ghost use Rattle.sentences.specs.Text.{behind_lines, first_line};

use refusal::About;
use text::put::Writer;

// The digits of a number, with its sign.
fn put_signed(w: &mut Writer, z: i64)
    ensures { Wrote (signed false z) w.old w.new }
{
    w.minus(z);
    w.digits(z.unsigned_abs());
}

// A number as hundredths in threes, with its sign.
fn put_grouped(w: &mut Writer, z: i64)
    ensures { Wrote (signed true z) w.old w.new }
{
    w.minus(z);
    w.grouped(z.unsigned_abs());
}

// A byte of a sentence: a blank, or itself.
#[tactic(auto, unfolding(crate::specs::Blanks::filled_in))]
fn put_filled_in(w: &mut Writer, x: About, b: u8)
    ensures { Wrote (filled_in x b) w.old w.new }
{
    match b {
        b'#' => w.digits(x.item as u64),
        b'$' => put_signed(w, x.value),
        b'~' => put_grouped(w, x.value),
        b'<' => put_signed(w, x.low),
        b'>' => put_signed(w, x.high),
        _ => w.byte(b),
    }
}

// The line n of a text, without its end; none behind the last.
pub(crate) fn line_at(text: &[u8], n: usize) -> &[u8]
    ensures { result.now ≡ first_line (behind_lines n text.now) }
{
    text.split(|b| *b == b'\n').nth(n).unwrap_or(&[])
}

// A sentence with its blanks filled in.
pub(crate) fn put_filled(w: &mut Writer, x: About, sentence: &[u8])
    ensures { Wrote (filled x sentence.now) w.old w.new }
{
    for b in sentence {
        put_filled_in(w, x, *b);
    }
}
