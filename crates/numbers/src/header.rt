// Refusal 5 of the header's numbers.
ghost use Rattle.std.specs.Prelude.{◌≡◌, [], ◌∷◌, ◌+◌, ◌≤◌, length};
ghost use Rattle.refusal.specs.Test.{verdict};
ghost use Rattle.file.specs.Layout.{header_end};
ghost use Rattle.numbers.specs.Tests.{header_limit, shell_tests, header_tests};

use crate::limits::{LONGEST_CIRCUMFERENCE, SHORTEST_CIRCUMFERENCE, SHORTEST_SHELL};
use file::layout;
use file::word::word;
use heads::kind::HeadKind;
use heads::length::lengths_of;
use measure::diameter::Diameter;
use records::record::{Record, limit};
use refusal::Refusal;
use schedule::{LARGEST_STEP, SMALLEST_STEP};
use sentences::OF_HEADER;
use std::ops::RangeInclusive;
use tank::limits::{LONGEST_FLANGE, LONGEST_SHELL};

// The test of the header's number at a byte.
// That the bytes hold a header is a clause and no type, as `file::section::courses` says.
fn header_limit(s: &[u8], at: usize, limits: RangeInclusive<u32>) -> Result<(), Refusal>
    requires { (header_end ≤ length s.now) × (at + 4 ≤ header_end) }
    ensures { result ≡ verdict (header_limit s.now at limits.start limits.end ∷ []) }
{
    let header = Record {
        at: 0,
        sentence: OF_HEADER,
        item: 0,
    };
    limit(s, header, at, limits)
}

// DH, and the shell's: L1 and the circumferences at its ends.
fn shell_tested(s: &[u8]) -> Result<(), Refusal>
    requires { header_end ≤ length s.now }
    ensures { result ≡ verdict (shell_tests s.now) }
{
    let low = SHORTEST_CIRCUMFERENCE;
    let high = LONGEST_CIRCUMFERENCE;
    header_limit(s, layout::DH, Diameter::SMALLEST..=Diameter::LARGEST)?;
    header_limit(s, layout::L1, SHORTEST_SHELL..=LONGEST_SHELL)?;
    header_limit(s, layout::LEFT, low..=high)?;
    header_limit(s, layout::RIGHT, low..=high)
}

// All of them, in their order.
#[tactic(auto, unfolding(crate::specs::Tests::header_tests))]
pub fn header_tested(s: &[u8]) -> Result<(), Refusal>
    requires { header_end ≤ length s.now }
    ensures { result ≡ verdict (header_tests s.now) }
{
    let kind = HeadKind::of(word(s, layout::KIND));
    shell_tested(s)?;
    header_limit(s, layout::L2, 0..=LONGEST_FLANGE)?;
    header_limit(s, layout::L3, lengths_of(kind))?;
    header_limit(s, layout::STEP, SMALLEST_STEP..=LARGEST_STEP)
}
