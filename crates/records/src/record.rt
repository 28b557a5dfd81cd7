// A record of the file and its numbers as they are told; and the test of one number (refusal 5).
ghost use Rattle.std.specs.Prelude.{◌≡◌, [], ◌∷◌, ◌+◌, ◌^◌, ◌≤◌, ◌<◌, length};
ghost use Rattle.refusal.specs.Test.{verdict};
ghost use Rattle.file.specs.Section.{record_at};
ghost use Rattle.records.specs.Record.{first_sentence, record_of, number_test, limit};

use file::section::{Records, Section, record_at};
use file::word::word;
use refusal::{Refusal, limited};
use sentences::{OF_COURSES, OF_DEADWOOD, OF_SEAMS};
use std::ops::RangeInclusive;

// A record of the file, or its header: the byte where it starts, the sentence of its first word, and which one it is as one counts from 1.
#[derive(Clone, Copy)]
pub struct Record {
    pub at: usize,
    pub sentence: u32,
    pub item: u32,
}

// The sentence of the first word of a record.
fn first_sentence(records: Records) -> u32
    ensures { result ≡ first_sentence records }
{
    match records {
        Records::Courses => OF_COURSES,
        Records::Deadwood => OF_DEADWOOD,
        Records::Seams => OF_SEAMS,
    }
}

// Record i of a section.
pub fn record_of(x: Section, i: usize) -> Record
    requires { (record_at x i < 2 ^ 63) × (i + 1 < 2 ^ 32) }
    ensures { result ≡ record_of x i }
{
    let records = x.records;
    Record {
        at: record_at(x, i),
        sentence: first_sentence(records),
        item: i as u32 + 1,
    }
}

// The test of a number that stands at byte k of a record, which is its place. That places have 32 bits is a clause: with it in `Record`, `record_of` would ask
// more of a section and a row than it does.
pub fn number_tested(
    x: Record,
    k: usize,
    number: u64,
    limits: RangeInclusive<u32>,
) -> Result<(), Refusal>
    requires { (x.at + k < 2 ^ 32) × (x.sentence + k < 2 ^ 32) × (number < 2 ^ 63) }
    ensures { result ≡ verdict (number_test x k limits.start number limits.end ∷ []) }
{
    let place = (x.at + k) as u32;
    let sentence = x.sentence + (k / 4) as u32;
    limited(5, place, sentence, x.item, number, limits)
}

// .. as it stands there.
pub fn limit(s: &[u8], x: Record, k: usize, limits: RangeInclusive<u32>) -> Result<(), Refusal>
    requires { (x.at + k + 4 ≤ length s.now) × (x.at + k < 2 ^ 32) × (x.sentence + k < 2 ^ 32) }
    ensures { result ≡ verdict (limit s.now x k limits.start limits.end ∷ []) }
{
    number_tested(x, k, u64::from(word(s, x.at + k)), limits)
}
