// The calls that C programs make (`capi_c` exports them), under names that begin with milechime_: the table of a survey, both lookups, an old survey in today's format,
// and a refusal in words, on numbers and slices alone. A slice is a pointer and a length to C. Nothing is asked of a caller but that these are
// what they say.
// A function for each of C's calls, also where two are alike: C calls by name and knows no type parameters. It may hand in any DH and step, 0 too.
#![tactic(auto)]

ghost use Rattle.std.specs.Prelude.{◌≡◌, ◌≤◌, ◌<◌, length};
ghost use Rattle.laws.specs.Exactly.{Exactly};
ghost use Rattle.file.specs.Format.{format48};
ghost use Rattle.survey.specs.Survey.{decoded, survey_in};
ghost use Rattle.rewrite.specs.Rewritten.{most_bytes};
ghost use Rattle.table.specs.Answer.{verdict_on, made, table_left};
ghost use Rattle.table.specs.Condition3.{NetRowAt, Condition3At};
ghost use Rattle.convert.specs.Converted.{converted};
ghost use Rattle.lookup.specs.Answer.{litres_answer, TooHigh, height_answer, TooMuch};
ghost use Rattle.sentences.specs.Sentences.{words_size};
ghost use Rattle.answers.specs.Numbers.{table_numbers, litres_numbers, height_numbers, converted_numbers, words_of, conversion_words};
ghost use Rattle.answers.specs.Promises.{EveryCounted, OnTableAnswered, LowestAnswered, ConvertedKeeps};

use answers::plain_numbers::{
    ConvertedNumbers, HeightNumbers, LitresNumbers, TableNumbers, converted_numbers,
    height_numbers, litres_numbers, table_numbers,
};
use answers::words::{Words, in_words, words_about};
use convert::convert_48;
use lookup::height::height_for;
use lookup::litres::litres_at;
use measure::dip_height::DipHeight;
use measure::volume::Volume;
use refusal::about_of;
use schedule::MOST_ROWS;
use sentences::OF_OLD_HEADER;
use survey::decode::{OLD_HEADER, decode, decode_48};
use table::judge::judged;
use table::make::make_table;

// The table of a survey, from the start of the lent table; a refusal leaves it as it was.
pub fn milechime_table(survey: &[u8], table: &mut [u32]) -> TableNumbers
    ensures value { result ≡ table_numbers (made (decoded survey.now) (length table.old)) }
    ensures table_after { table.new ≡ table_left (decoded survey.now) table.old }
    ensures net_rows { EveryCounted NetRowAt (survey_in (decoded survey.now)) result.rows table.new }
    ensures condition3 { EveryCounted Condition3At (survey_in (decoded survey.now)) result.rows table.new }
{
    table_numbers(make_table(survey, table))
}

// The volume at a dip height.
pub fn milechime_litres(dh: u32, step: u32, table: &[u32], height: u32) -> LitresNumbers
    ensures value { result ≡ litres_numbers (litres_answer dh step table.now height) }
    ensures on_table_answered { OnTableAnswered dh step table.now height result }
    ensures exactly { Exactly (result.refusal ≡ 12) (TooHigh dh step table.now height) }
{
    litres_numbers(litres_at(dh, step, table, DipHeight::from(height)))
}

// The lowest dip height for a volume.
pub fn milechime_height(dh: u32, step: u32, table: &[u32], volume: u32) -> HeightNumbers
    ensures value { result ≡ height_numbers (height_answer dh step table.now volume) }
    ensures lowest_answered { LowestAnswered dh step table.now volume result }
    ensures exactly { Exactly (result.refusal ≡ 13) (TooMuch dh step table.now volume) }
{
    height_numbers(height_for(dh, step, table, Volume::from(volume)))
}

// An old survey, with a header of 48 bytes, in today's format; its table stays.
pub fn milechime_convert_48(survey: &[u8]) -> ConvertedNumbers
    ensures value { result ≡ converted_numbers (converted survey.now) }
    ensures converted_keeps { ConvertedKeeps survey.now result }
    ensures length_le_most_bytes { result.length ≤ most_bytes }
{
    converted_numbers(convert_48(survey))
}

// The words of the refusal that making a table with so much room would give; none where nothing is refused.
pub fn milechime_words(survey: &[u8], table_length: usize) -> Words
    ensures value { result ≡ words_of (verdict_on (decoded survey.now) table_length) }
    ensures length_lt_words_size { result.length < words_size }
    ensures exactly { Exactly (result.length ≡ 0) ((table_numbers (made (decoded survey.now) table_length)).refusal ≡ 0) }
{
    in_words(judged(decode(survey), table_length))
}

// .. of the refusal that converting an old survey, whose header has so many bytes, would give. No length but 48 can be converted from, and
// words say so.
pub fn milechime_convert_words(survey: &[u8], header: u32) -> Words
    ensures value { result ≡ conversion_words header survey.now }
    ensures length_lt_words_size { result.length < words_size }
    ensures exactly { Exactly (result.length ≡ 0) ((header ≡ format48.header) × ((converted_numbers (converted survey.now)).refusal ≡ 0)) }
{
    let old = OLD_HEADER as u32;
    if header == old {
        return in_words(judged(decode_48(survey), MOST_ROWS));
    }
    words_about(about_of(OF_OLD_HEADER, 0, header as u64, 0..=old))
}
