// A refusal in words, laid out as C lays it out.
ghost use Rattle.std.specs.Prelude.{◌≡◌, ◌<◌};
ghost use Rattle.sentences.specs.Sentences.{words_size};
ghost use Rattle.answers.specs.Numbers.{words_about, words_of};

use refusal::{About, Refusal};
use sentences::put_words;
use text::put::Writer;

// The words of a refusal: the first `length` bytes of the text; behind them it is 0, and at least one byte is.
// The struct is that of include/milechime.h: C gets it by value and nothing is allocated, so the text has room for the longest.
#[repr(C)]
#[derive(Clone, Copy)]
pub struct Words {
    pub length: u32,
    pub text: [u8; 256],
}

// What a test is about.
pub fn words_about(about: About) -> Words
    ensures value { result ≡ words_about about }
    ensures length_lt_words_size { result.length < words_size }
{
    let mut text = [0u8; 256];
    let mut w = Writer {
        out: &mut text,
        at: 0,
    };
    put_words(&mut w, about);
    Words {
        length: w.at as u32,
        text,
    }
}

// The words of a verdict; none where nothing is refused.
pub fn in_words(verdict: Result<(), Refusal>) -> Words
    ensures value { result ≡ words_of verdict }
    ensures length_lt_words_size { result.length < words_size }
{
    match verdict {
        Ok(()) => Words {
            length: 0,
            text: [0u8; 256],
        },
        Err(r) => words_about(r.about),
    }
}
