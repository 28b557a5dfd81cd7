// tankconvert: an old survey file in today's format, or the line of its refusal; and beside a refusal, on standard error, what it means in words.
#![tactic(auto)]

use arguments::{SURVEY_ROOM, is_word, own_words, read_survey, say, tells_use};
use report::conversion::conversion_said;
use rewrite::rewritten::MOST_BYTES;

fn main(rt: HostRuntime) {
    let own = own_words(&rt);
    let right = own.words().len() == 1 && is_word(&rt, own.first, b"48");
    let text = b"use: tankconvert [-f FILE] FROM\n\
        Writes an old survey file, which is read from FILE or from standard input, in today's format, with a header of 56 bytes.\n\
        FROM is the length of the old file's header in bytes, and must be 48.\n\
        Convert a file once: one that has seams already may pass for an old one, and would lose them.\n";
    if tells_use(&rt, own, right, text) {
        return;
    }
    let mut file = [0u8; SURVEY_ROOM];
    let got = read_survey(&rt, own, &mut file);
    if got.end.is_ok() {
        let survey = &file[..got.count];
        let mut out = [0u8; MOST_BYTES];
        say(&rt, &mut out, |out, err| conversion_said(survey, out, err));
    }
}
