// Refusal 5: every number of the file as it stands, and then the readings that have lost the tape rise.
ghost use Rattle.std.specs.Prelude.{◌≡◌, [], ◌∷◌, ◌+◌, ◌≤◌};
ghost use Rattle.refusal.specs.Test.{verdict};
ghost use Rattle.file.specs.Layout.{course_end};
ghost use Rattle.records.specs.RecordLaws.{Whole};
ghost use Rattle.numbers.specs.FitLaws.{LimitsFit};
ghost use Rattle.readings.specs.Tests.{reading_test, reading_tests, corrected_tests, number_tests};
ghost use Rattle.form.specs.PlacedLaws.{Placed};

use crate::rise::{corrected_at, rise_of};
use file::format::Format;
use file::layout;
use file::section::courses;
use numbers::limits::{LONGEST_CIRCUMFERENCE, SHORTEST_CIRCUMFERENCE};
use numbers::numbers::limits_tested;
use records::record::{Record, number_tested, record_of};
use refusal::Refusal;
use sentences::OF_CORRECTED;

// The reading at byte k of a course.
fn reading_tested(s: &[u8], x: Record, k: usize, rise: u64) -> Result<(), Refusal>
    requires { Whole s.now x course_end × (k + 4 ≤ course_end) }
    ensures { result ≡ verdict (reading_test s.now x k rise ∷ []) }
{
    let course = Record {
        at: x.at,
        sentence: OF_CORRECTED,
        item: x.item,
    };
    let reading = corrected_at(s, x.at + k, rise);
    let limits = SHORTEST_CIRCUMFERENCE..=LONGEST_CIRCUMFERENCE;
    number_tested(course, k, reading, limits)
}

// Both readings of a course.
#[tactic(auto, unfolding(crate::specs::Tests::reading_tests))]
fn course_readings_tested(s: &[u8], x: Record, rise: u64) -> Result<(), Refusal>
    requires { Whole s.now x course_end }
    ensures { result ≡ verdict (reading_tests s.now x rise) }
{
    reading_tested(s, x, layout::FIRST_CIRCUMFERENCE, rise)?;
    reading_tested(s, x, layout::SECOND_CIRCUMFERENCE, rise)
}

// The readings of all courses, course by course.
#[tactic(auto, using(refusal::specs::TestLaws::passed_next), unfolding(refusal::specs::Test::items))]
pub(crate) fn readings_tested(f: Format, s: &[u8]) -> Result<(), Refusal>
    requires { LimitsFit f s.now }
    ensures { result ≡ verdict (corrected_tests f s.now) }
{
    let x = courses(f, s);
    for i in 0..x.count {
        course_readings_tested(s, record_of(x, i), rise_of(f, s, i))?;
    }
    Ok(())
}

// Of a file whose sections are well placed, all of refusal 5.
#[tactic(auto, using(refusal::specs::TestLaws::verdict_append))]
pub fn numbers_tested(f: Format, s: &[u8]) -> Result<(), Refusal>
    requires { Placed f s.now }
    ensures { result ≡ verdict (number_tests f s.now) }
{
    limits_tested(f, s)?;
    readings_tested(f, s)
}
