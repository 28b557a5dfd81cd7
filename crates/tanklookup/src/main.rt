// tanklookup: the litres at dip heights of a surveyed tank, the lowest dip heights for volumes, or the litres delivered between two dips;
// and beside a refusal, on standard error, what it means in words. Figures are in mm and litres with up to two decimals, as on the tape.
#![tactic(auto)]

mod commands;

use arguments::{SURVEY_ROOM, own_words, read_survey, tells_use};
use commands::{asked, tell_each};
use survey_lookup::table_of;

fn main(rt: HostRuntime) {
    let own = own_words(&rt);
    let first = own.first + 1;
    let command = asked(&rt, own.first, first..own.end);
    let text =
        b"use: tanklookup [-f FILE] litres MM ..                the litres at each dip height\n\
        \x20    tanklookup [-f FILE] height LITRES ..            the lowest dip height at which the tank holds each volume\n\
        \x20    tanklookup [-f FILE] delivered BEFORE AFTER      the litres at dip height AFTER less those at BEFORE, with the sign\n\
        The survey is read from FILE or from standard input. MM, LITRES, BEFORE and AFTER are figures such as 1250 or 1250.75.\n";
    if tells_use(&rt, own, command.is_some(), text) {
        return;
    }
    let mut file = [0u8; SURVEY_ROOM];
    let got = read_survey(&rt, own, &mut file);
    if got.end.is_ok() {
        tell_each(
            &rt,
            command.unwrap(),
            table_of(&file[..got.count]),
            first..own.end,
        );
    }
}
