// The seams of a course, the tape rise over them, and a reading that has lost it.
ghost use Rattle.std.specs.Prelude.{◌≡◌, ◌+◌, ◌^◌, ◌≤◌, ◌<◌, length};
ghost use Rattle.seams.specs.SeamLaws.{SeamFits};
ghost use Rattle.file.specs.Word.{word};
ghost use Rattle.numbers.specs.FitLaws.{LimitsFit};
ghost use Rattle.readings.specs.Reading.{seam_of, rise_of, corrected};

use file::format::Format;
use file::layout;
use file::section::{record_at, seams};
use file::word::word;
use records::item::seam_from;
use seams::rise::tape_rise;
use seams::seam::Seam;

// The seams of course i.
// `LimitsFit` is of a format and of bytes, once the numbers in them were tested: a clause, as `file::section::courses` says.
#[tactic(auto, using(numbers::specs::FitLaws::seam_from_fits))]
fn seam_of(f: Format, s: &[u8], i: usize) -> Seam
    requires { LimitsFit f s.now }
    ensures { (result ≡ seam_of f s.now i) × SeamFits result }
{
    let x = seams(f, s);
    if i < x.count {
        seam_from(s, record_at(x, i))
    } else {
        Seam::none()
    }
}

// The tape rise over them.
#[tactic(auto, using(numbers::specs::FitLaws::dh_fits), unfolding(crate::specs::Reading::rise_of))]
pub fn rise_of(f: Format, s: &[u8], i: usize) -> u64
    requires { LimitsFit f s.now }
    ensures { result ≡ rise_of f s.now i }
{
    tape_rise(seam_of(f, s, i), word(s, layout::DH))
}

// The reading at a byte less the tape rise.
pub fn corrected_at(s: &[u8], at: usize, rise: u64) -> u64
    requires { at + 4 ≤ length s.now }
    ensures { (result ≡ corrected (word s.now at) rise) × (result < 2 ^ 32) }
{
    u64::from(word(s, at)).saturating_sub(rise)
}
