// Refusal 5 of a record's numbers.
ghost use Rattle.std.specs.Prelude.{◌≡◌, [], ◌∷◌, length, ◌+◌, ◌^◌, ◌≤◌, ◌<◌};
ghost use Rattle.refusal.specs.Test.{verdict};
ghost use Rattle.file.specs.Layout.{header_end, course_end, item_end, seam_end};
ghost use Rattle.file.specs.Section.{record_long};
ghost use Rattle.records.specs.RecordLaws.{Whole};
ghost use Rattle.numbers.specs.Tests.{course_tests, heights_test, volume_test, item_tests, seam_tests, record_tests};

use crate::limits;
use deadwood::item::{Deadwood, LARGEST_VOLUME};
use file::layout;
use file::section::Records;
use file::word::word;
use records::item::item_from;
use records::record::{Record, limit};
use refusal::{About, Refusal, about_of, one_test};
use seams::seam::{MOST_SEAMS, THICKEST_SEAM, WIDEST_SEAM};
use tank::limits::LONGEST_SHELL;

// The numbers of a course.
// `Whole` is of a record and of the bytes that it lies in, which a `Record` does not hold: a clause.
#[tactic(auto, unfolding(crate::specs::Tests::course_tests))]
fn course_tested(s: &[u8], x: Record) -> Result<(), Refusal>
    requires { Whole s.now x course_end }
    ensures { result ≡ verdict (course_tests s.now x) }
{
    let low = limits::SHORTEST_CIRCUMFERENCE;
    let high = limits::LONGEST_CIRCUMFERENCE;
    let lengths = limits::SHORTEST_COURSE..=LONGEST_SHELL;
    limit(s, x, layout::FIRST_CIRCUMFERENCE, low..=high)?;
    limit(s, x, layout::SECOND_CIRCUMFERENCE, low..=high)?;
    limit(s, x, layout::COURSE_LENGTH, lengths)?;
    limit(s, x, layout::THICKNESS, limits::THINNEST..=limits::THICKEST)
}

// The heights of a deadwood item. Where they do not fit, the high one is the bad number.
fn heights_tested(item: Deadwood, dh: u32, x: Record) -> Result<(), Refusal>
    requires { (x.at + item_end < 2 ^ 32) × (x.sentence + item_end < 2 ^ 32) }
    ensures { result ≡ verdict (heights_test item dh x ∷ []) }
{
    let high = item.high.units();
    let sentence = x.sentence + (layout::HIGH_HEIGHT / 4) as u32;
    let about = about_of(sentence, x.item, u64::from(high), 0..=dh);
    let place = (x.at + layout::HIGH_HEIGHT) as u32;
    one_test(5, place, item.heights_fit(dh), about)
}

// Its volume.
fn volume_tested(item: Deadwood, x: Record) -> Result<(), Refusal>
    requires { (x.at + item_end < 2 ^ 32) × (x.sentence + item_end < 2 ^ 32) }
    ensures { result ≡ verdict (volume_test item x ∷ []) }
{
    let about = About {
        sentence: x.sentence + (layout::ITEM_VOLUME / 4) as u32,
        item: x.item,
        value: item.volume,
        low: -LARGEST_VOLUME,
        high: LARGEST_VOLUME,
    };
    let place = (x.at + layout::ITEM_VOLUME) as u32;
    one_test(5, place, item.volume_fits(), about)
}

// The numbers of a deadwood item.
#[tactic(auto, unfolding(crate::specs::Tests::item_tests))]
fn item_tested(s: &[u8], x: Record) -> Result<(), Refusal>
    requires { (header_end ≤ length s.now) × Whole s.now x item_end }
    ensures { result ≡ verdict (item_tests s.now x) }
{
    let item = item_from(s, x.at);
    heights_tested(item, word(s, layout::DH), x)?;
    volume_tested(item, x)
}

// The numbers of a seam item.
#[tactic(auto, unfolding(crate::specs::Tests::seam_tests))]
fn seam_tested(s: &[u8], x: Record) -> Result<(), Refusal>
    requires { Whole s.now x seam_end }
    ensures { result ≡ verdict (seam_tests s.now x) }
{
    limit(s, x, layout::SEAM_NUMBER, 0..=MOST_SEAMS)?;
    limit(s, x, layout::SEAM_THICKNESS, 0..=THICKEST_SEAM)?;
    limit(s, x, layout::SEAM_WIDTH, 0..=WIDEST_SEAM)
}

// The numbers of a record.
pub fn record_tested(records: Records, s: &[u8], x: Record) -> Result<(), Refusal>
    requires { (header_end ≤ length s.now) × Whole s.now x (record_long records) }
    ensures { result ≡ verdict (record_tests records s.now x) }
{
    match records {
        Records::Courses => course_tested(s, x),
        Records::Deadwood => item_tested(s, x),
        Records::Seams => seam_tested(s, x),
    }
}
