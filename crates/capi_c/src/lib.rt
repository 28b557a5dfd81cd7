// The calls of `capi` under C's names and by C's calling convention: the static library behind include/milechime.h. Each promises what the call of
// that name there promises.
// No other crate can list a static library, so each call is here and in `capi`, where Rattle can call it.
#![tactic(auto)]

ghost use Rattle.std.specs.Prelude.{◌≡◌, ◌≤◌, ◌<◌, length};
ghost use Rattle.laws.specs.Exactly.{Exactly};
ghost use Rattle.file.specs.Format.{format48};
ghost use Rattle.survey.specs.Survey.{decoded, survey_in};
ghost use Rattle.rewrite.specs.Rewritten.{most_bytes};
ghost use Rattle.table.specs.Answer.{verdict_on, made, table_left};
ghost use Rattle.table.specs.Condition3.{NetRowAt, Condition3At};
ghost use Rattle.convert.specs.Converted.{converted};
ghost use Rattle.lookup.specs.Answer.{litres_answer, TooHigh, height_answer, TooMuch};
ghost use Rattle.sentences.specs.Sentences.{words_size};
ghost use Rattle.answers.specs.Numbers.{table_numbers, litres_numbers, height_numbers, converted_numbers, words_of, conversion_words};
ghost use Rattle.answers.specs.Promises.{EveryCounted, OnTableAnswered, LowestAnswered, ConvertedKeeps};

use answers::plain_numbers::{ConvertedNumbers, HeightNumbers, LitresNumbers, TableNumbers};
use answers::words::Words;

// The table of a survey, from the start of the lent table; a refusal leaves it as it was.
#[unsafe(no_mangle)]
pub extern "C" fn milechime_table(survey: &[u8], table: &mut [u32]) -> TableNumbers
    ensures value { result ≡ table_numbers (made (decoded survey.now) (length table.old)) }
    ensures table_after { table.new ≡ table_left (decoded survey.now) table.old }
    ensures net_rows { EveryCounted NetRowAt (survey_in (decoded survey.now)) result.rows table.new }
    ensures condition3 { EveryCounted Condition3At (survey_in (decoded survey.now)) result.rows table.new }
{
    capi::milechime_table(survey, table)
}

// The volume at a dip height.
#[unsafe(no_mangle)]
pub extern "C" fn milechime_litres(dh: u32, step: u32, table: &[u32], height: u32) -> LitresNumbers
    ensures value { result ≡ litres_numbers (litres_answer dh step table.now height) }
    ensures on_table_answered { OnTableAnswered dh step table.now height result }
    ensures exactly { Exactly (result.refusal ≡ 12) (TooHigh dh step table.now height) }
{
    capi::milechime_litres(dh, step, table, height)
}

// The lowest dip height for a volume.
#[unsafe(no_mangle)]
pub extern "C" fn milechime_height(dh: u32, step: u32, table: &[u32], volume: u32) -> HeightNumbers
    ensures value { result ≡ height_numbers (height_answer dh step table.now volume) }
    ensures lowest_answered { LowestAnswered dh step table.now volume result }
    ensures exactly { Exactly (result.refusal ≡ 13) (TooMuch dh step table.now volume) }
{
    capi::milechime_height(dh, step, table, volume)
}

// An old survey, with a header of 48 bytes, in today's format; its table stays.
#[unsafe(no_mangle)]
pub extern "C" fn milechime_convert_48(survey: &[u8]) -> ConvertedNumbers
    ensures value { result ≡ converted_numbers (converted survey.now) }
    ensures converted_keeps { ConvertedKeeps survey.now result }
    ensures length_le_most_bytes { result.length ≤ most_bytes }
{
    capi::milechime_convert_48(survey)
}

// The words of the refusal that making a table with so much room would give; none where nothing is refused.
#[unsafe(no_mangle)]
pub extern "C" fn milechime_words(survey: &[u8], table_length: usize) -> Words
    ensures value { result ≡ words_of (verdict_on (decoded survey.now) table_length) }
    ensures length_lt_words_size { result.length < words_size }
    ensures exactly { Exactly (result.length ≡ 0) ((table_numbers (made (decoded survey.now) table_length)).refusal ≡ 0) }
{
    capi::milechime_words(survey, table_length)
}

// .. of the refusal that converting an old survey, whose header has so many bytes, would give. No length but 48 can be converted from, and
// words say so.
#[unsafe(no_mangle)]
pub extern "C" fn milechime_convert_words(survey: &[u8], header: u32) -> Words
    ensures value { result ≡ conversion_words header survey.now }
    ensures length_lt_words_size { result.length < words_size }
    ensures exactly { Exactly (result.length ≡ 0) ((header ≡ format48.header) × ((converted_numbers (converted survey.now)).refusal ≡ 0)) }
{
    capi::milechime_convert_words(survey, header)
}
