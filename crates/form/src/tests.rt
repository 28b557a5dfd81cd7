// Refusals 1 to 4, which look at nothing but the file's size, its sections and the head kind.
ghost use Rattle.std.specs.Prelude.{◌≡◌, [], ◌∷◌, ◌+◌, ◌≤◌, length};
ghost use Rattle.refusal.specs.Test.{verdict};
ghost use Rattle.file.specs.Layout.{kind_at};
ghost use Rattle.file.specs.Limits.{largest_file};
ghost use Rattle.file.specs.Section.{seams, seam_items, sections};
ghost use Rattle.file.specs.SectionLaws.{Readable};
ghost use Rattle.form.specs.Tests.{size_tests, count_sentence, count_test, count_tests, place_test, overlap_sentence, apart_test, place_tests, kind_test, layout_tests};

use deadwood::item::MOST_ITEMS;
use file::format::Format;
use file::layout;
use file::section::{Records, Section, are_apart, courses, deadwood, is_placed, seam_items, seams};
use file::word::word;
use heads::kind::HeadKind;
use refusal::{Refusal, about_of, limited, one_test};
use sentences::{
    OF_DEADWOOD_OVER_COURSES, OF_HEADER, OF_LARGE_FILE, OF_SEAMS_OVER_COURSES,
    OF_SEAMS_OVER_DEADWOOD, OF_SIZE,
};
use std::ops::RangeInclusive;

// A file's size in bytes.
pub const LARGEST_FILE: usize = 65_536;

pub const MOST_COURSES: usize = 40;

// Refusal 1: the file has its header, and is none too large. A size past the largest is not named.
pub fn size_tested(f: Format, s: &[u8]) -> Result<(), Refusal>
    ensures value { result ≡ verdict (size_tests f s.now) }
    ensures readable { Readable f }
{
    let low = f.header as u32;
    let high = LARGEST_FILE as u32;
    let about = about_of(OF_LARGE_FILE, 0, 0, low..=high);
    one_test(1, 0, s.len() <= LARGEST_FILE, about)?;
    limited(1, 0, OF_SIZE, 0, s.len() as u64, low..=high)
}

// The sentence of a section's count in the header.
fn count_sentence(records: Records) -> u32
    ensures { (result ≡ count_sentence records) × (result ≤ 16) }
{
    match records {
        Records::Courses => OF_HEADER + (layout::COURSES / 4) as u32,
        Records::Deadwood => OF_HEADER + (layout::DEADWOOD / 4) as u32,
        Records::Seams => OF_HEADER + (layout::SEAMS / 4) as u32,
    }
}

// Refusal 2 of a section.
fn count_tested(x: Section, limits: RangeInclusive<u32>) -> Result<(), Refusal>
    ensures { result ≡ verdict (count_test limits.start x limits.end ∷ []) }
{
    let sentence = count_sentence(x.records);
    limited(2, 0, sentence, 0, x.count as u64, limits)
}

// .. of every section.
fn counts_tested(f: Format, s: &[u8]) -> Result<(), Refusal>
    requires { f.header ≤ length s.now }
    ensures { result ≡ verdict (count_tests f s.now) }
{
    let items = seam_items(f, s) as u32;
    count_tested(courses(f, s), 1..=MOST_COURSES as u32)?;
    count_tested(deadwood(f, s), 0..=MOST_ITEMS as u32)?;
    count_tested(seams(f, s), items..=items)
}

// Refusal 3 of a section's own place.
fn place_tested(f: Format, s: &[u8], x: Section) -> Result<(), Refusal>
    requires { length s.now ≤ largest_file }
    ensures { result ≡ verdict (place_test f.header (length s.now) x ∷ []) }
{
    let (header, file_size) = (f.header, s.len());
    let sentence = count_sentence(x.records) + 1;
    let limits = header as u32..=file_size as u32;
    let about = about_of(sentence, x.count as u32, x.offset as u64, limits);
    one_test(3, 0, is_placed(header, file_size, x), about)
}

// The sentence of a section that overlaps one before it in the header.
fn overlap_sentence(first: Records, second: Records) -> u32
    ensures { result ≡ overlap_sentence first second }
{
    match second {
        Records::Courses | Records::Deadwood => OF_DEADWOOD_OVER_COURSES,
        Records::Seams => match first {
            Records::Courses => OF_SEAMS_OVER_COURSES,
            Records::Deadwood | Records::Seams => OF_SEAMS_OVER_DEADWOOD,
        },
    }
}

// .. of two sections.
fn apart_tested(x: Section, y: Section) -> Result<(), Refusal>
    ensures { result ≡ verdict (apart_test x y ∷ []) }
{
    let sentence = overlap_sentence(x.records, y.records);
    let about = about_of(sentence, y.count as u32, y.offset as u64, 0..=0);
    one_test(3, 0, are_apart(x, y), about)
}

// Refusal 3 of every section: each one's own place, and then those behind it.
fn sections_tested(f: Format, s: &[u8]) -> Result<(), Refusal>
    requires { (f.header ≤ length s.now) × (length s.now ≤ largest_file) }
    ensures { result ≡ verdict (place_tests f.header (length s.now) (sections f s.now)) }
{
    let (x, y, z) = (courses(f, s), deadwood(f, s), seams(f, s));
    place_tested(f, s, x)?;
    apart_tested(x, y)?;
    apart_tested(x, z)?;
    place_tested(f, s, y)?;
    apart_tested(y, z)?;
    place_tested(f, s, z)
}

// Refusal 4.
fn kind_tested(s: &[u8]) -> Result<(), Refusal>
    requires { kind_at + 4 ≤ length s.now }
    ensures { result ≡ verdict (kind_test s.now ∷ []) }
{
    let kind = word(s, layout::KIND);
    let about = about_of(OF_HEADER, 0, u64::from(kind), 0..=0);
    one_test(4, 0, HeadKind::try_from(kind).is_ok(), about)
}

// Refusals 2 to 4 of a file that passes the first.
#[tactic(auto, using(refusal::specs::TestLaws::verdict_append), unfolding(crate::specs::Tests::layout_tests))]
pub fn layout_tested(f: Format, s: &[u8]) -> Result<(), Refusal>
    requires { (f.header ≤ length s.now) × (length s.now ≤ largest_file) }
    ensures { result ≡ verdict (layout_tests f s.now) }
{
    counts_tested(f, s)?;
    sections_tested(f, s)?;
    kind_tested(s)
}
