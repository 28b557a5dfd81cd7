// A refusal as the papers number it and what it is about, one test, and two verdicts put together. Tests in a row are joined by `?`. What is
// refused, and when, is said where the tests stand.
#![tactic(auto)]

ghost use Rattle.std.specs.Prelude.{◌≡◌, [], ◌∷◌, ◌^◌, ◌<◌};
ghost use Rattle.refusal.specs.Test.{about, test, limited, verdict, first_refusal};

use crate::limits::is_within;
use std::ops::RangeInclusive;

pub mod limits;

// What a test is about: the sentence that says it, and the numbers that the sentence names.
// The same numbers whatever the sentence: its blanks say which of them are read, and one function fills in all (`sentences`).
#[derive(Clone, Copy)]
pub struct About {
    pub sentence: u32,
    // a record's number counted from 1, a row's index, ..; 0 where nothing is counted
    pub item: u32,
    // the number that is tested, and the limits that it is tested by
    pub value: i64,
    pub low: i64,
    pub high: i64,
}

// Number and place are the paper's, and no enum: theorems speak of any number (`never_10` of `answers`), and C is handed both as they are.
#[derive(Clone, Copy)]
pub struct Refusal {
    pub number: u32,
    pub place: u32,
    pub about: About,
}

// What a test of a number without a sign is about: of any that `About` can tell, for which 32 bits would be too few.
pub fn about_of(sentence: u32, item: u32, value: u64, limits: RangeInclusive<u32>) -> About
    requires { value < 2 ^ 63 }
    ensures { result ≡ about sentence item value limits.start limits.end }
{
    About {
        sentence,
        item,
        value: value as i64,
        low: i64::from(*limits.start()),
        high: i64::from(*limits.end()),
    }
}

// One test, by its number, its place and what it is about.
pub fn one_test(number: u32, place: u32, passes: bool, about: About) -> Result<(), Refusal>
    ensures { result ≡ verdict (test number place passes about ∷ []) }
{
    if passes {
        Ok(())
    } else {
        Err(Refusal {
            number,
            place,
            about,
        })
    }
}

// .. of a number, which is told with the limits that it is tested by.
pub fn limited(
    number: u32,
    place: u32,
    sentence: u32,
    item: u32,
    value: u64,
    limits: RangeInclusive<u32>,
) -> Result<(), Refusal>
    requires { value < 2 ^ 63 }
    ensures { result ≡ verdict (limited number place sentence item limits.start value limits.end ∷ []) }
{
    let low = u64::from(*limits.start());
    let high = u64::from(*limits.end());
    let passes = is_within(low, value, high);
    one_test(
        number,
        place,
        passes,
        about_of(sentence, item, value, limits),
    )
}

// The first verdict where that refuses, else the second: of two that are in hand. The tests of this library are joined by `?` and ask for none.
pub fn first_refusal(first: Result<(), Refusal>, second: Result<(), Refusal>) -> Result<(), Refusal>
    ensures { result ≡ first_refusal first second }
{
    first?;
    second
}
