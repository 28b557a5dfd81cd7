// A refusal: its line, and what it is about in words. A memory of LINE_SIZE and one of ERR_SIZE bytes have room for both.
ghost use Rattle.std.specs.Prelude.{◌≡◌};
ghost use Rattle.lines.specs.Lines.{line_size};
ghost use Rattle.sentences.specs.Sentences.{words_size};
ghost use Rattle.said.specs.Said.{Told, refused_text, refused_words};

use crate::{ERR_SIZE, LINE_SIZE, Said};
use lines::refused_line;
use refusal::Refusal;
use sentences::put_words_line;
use text::put::Writer;

pub fn refused_said(refusal: Refusal, out: &mut [u8], err: &mut [u8]) -> Said
    ensures told { Told line_size (refused_text refusal) (refused_words refusal) out.old out.new err.old err.new result }
    ensures out_room { LINE_SIZE ≡ line_size }
    ensures err_room { ERR_SIZE ≡ words_size }
{
    let mut line = Writer { out, at: 0 };
    refused_line(&mut line, refusal.number, refusal.place);
    let mut words = Writer { out: err, at: 0 };
    put_words_line(&mut words, refusal.about);
    Said {
        out: line.at,
        err: words.at,
    }
}
