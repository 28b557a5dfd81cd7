// The converter: a file with a header of 48 bytes in today's format, or its refusal. It is judged by today's rules under its own format, its
// rows too.
#![tactic(auto)]

ghost use Rattle.refusal.specs.Test.{verdict_in};
ghost use Rattle.std.specs.Prelude.{◌≡◌};
ghost use Rattle.file.specs.Format.{format48};
ghost use Rattle.survey.specs.Survey.{decoded_as};
ghost use Rattle.convert.specs.Converted.{written, converted, Keeps};

use refusal::Refusal;
use rewrite::rewritten::{MOST_BYTES, put_rewritten};
use schedule::MOST_ROWS;
use survey::decode::decode_48;
use table::judge::judged;
use text::put::Writer;

// The file is the first `length` bytes, and behind them stands 0. Nothing is allocated, so there is room for the longest, with a length beside it.
#[derive(Clone, Copy)]
pub struct Converted {
    pub length: usize,
    pub file: [u8; MOST_BYTES],
}

fn written(survey: &[u8]) -> Converted
    requires { verdict_in (decoded_as format48 survey.now) ≡ Ok tt }
    ensures { result ≡ written survey.now }
{
    let mut file = [0u8; MOST_BYTES];
    let mut w = Writer {
        out: &mut file,
        at: 0,
    };
    put_rewritten(&mut w, survey);
    let length = w.at;
    Converted { length, file }
}

// Any bytes. A file that is converted is accepted, and its table, D1 and D2 are those of the old file.
pub fn convert_48(survey: &[u8]) -> Result<Converted, Refusal>
    ensures value { result ≡ converted survey.now }
    ensures keeps { Keeps survey.now result }
{
    judged(decode_48(survey), MOST_ROWS)?;
    Ok(written(survey))
}
