// Refusal 5: every number of the file within its limits as it stands, in the header, then in the sections' records.
ghost use Rattle.std.specs.Prelude.{◌≡◌};
ghost use Rattle.refusal.specs.Test.{verdict};
ghost use Rattle.file.specs.Section.{sections};
ghost use Rattle.file.specs.SectionLaws.{Inside};
ghost use Rattle.form.specs.PlacedLaws.{Placed};
ghost use Rattle.numbers.specs.Tests.{section_tests, sections_tests, limit_tests};

use crate::header::header_tested;
use crate::record_tests::record_tested;
use file::format::Format;
use file::section::{Section, courses, deadwood, seams};
use records::record::record_of;
use refusal::Refusal;

// The numbers of a section, record by record.
#[tactic(auto, using(records::specs::RecordLaws::record_whole, refusal::specs::TestLaws::passed_next), unfolding(refusal::specs::Test::items))]
fn section_tested(section: Section, s: &[u8]) -> Result<(), Refusal>
    requires { Inside s.now section }
    ensures { result ≡ verdict (section_tests s.now section) }
{
    let records = section.records;
    for i in 0..section.count {
        record_tested(records, s, record_of(section, i))?;
    }
    Ok(())
}

// .. of all sections of a file.
// `Placed` is of a format and of bytes, once refusals 1 to 3 were tested: a clause, as `file::section::courses` says.
#[tactic(auto, using(refusal::specs::TestLaws::verdict_append))]
fn records_tested(f: Format, s: &[u8]) -> Result<(), Refusal>
    requires { Placed f s.now }
    ensures { result ≡ verdict (sections_tests s.now (sections f s.now)) }
{
    section_tested(courses(f, s), s)?;
    section_tested(deadwood(f, s), s)?;
    section_tested(seams(f, s), s)
}

// All numbers, as they stand, of a file whose sections are well placed.
#[tactic(auto, using(refusal::specs::TestLaws::verdict_append))]
pub fn limits_tested(f: Format, s: &[u8]) -> Result<(), Refusal>
    requires { Placed f s.now }
    ensures { result ≡ verdict (limit_tests f s.now) }
{
    header_tested(s)?;
    records_tested(f, s)
}
