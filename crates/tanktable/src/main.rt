// tanktable: the capacity table of a survey, or the line of its refusal; and beside a refusal, on standard error, what it means in words.
#![tactic(auto)]

use arguments::{SURVEY_ROOM, own_words, read_survey, say, tells_use};
use report::capacity_table::table_said;
use said::OUT_SIZE;

fn main(rt: HostRuntime) {
    let own = own_words(&rt);
    let text = b"use: tanktable [-f FILE]\n\
        Prints the capacity table of a survey, which is read from FILE or from standard input: dip heights in mm, and litres.\n";
    if tells_use(&rt, own, own.words().is_empty(), text) {
        return;
    }
    let mut file = [0u8; SURVEY_ROOM];
    let got = read_survey(&rt, own, &mut file);
    if got.end.is_ok() {
        let survey = &file[..got.count];
        let mut out = [0u8; OUT_SIZE];
        say(&rt, &mut out, |out, err| table_said(survey, out, err));
    }
}
