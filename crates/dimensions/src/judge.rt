// Refusals 6, 7 and 14, and the diameters of a file that none of them is given to.
ghost use Rattle.std.specs.Prelude.{◌≡◌, [], ◌∷◌, ◌≤◌, length};
ghost use Rattle.measure.specs.Quantity.{diameter, diameter_units};
ghost use Rattle.refusal.specs.Test.{verdict};
ghost use Rattle.heads.specs.Kind.{kind_of};
ghost use Rattle.file.specs.Word.{word};
ghost use Rattle.file.specs.Layout.{header_end, kind_at, dh_at, l3_at};
ghost use Rattle.readings.specs.FitLaws.{NumbersFit};
ghost use Rattle.dimensions.specs.Tests.{head_length_test, dimension_tests};
ghost use Rattle.dimensions.specs.Judged.{diameters_judged, judged_by};

use crate::dimensions::{
    Diameters, diameters_of, head_diameter, heads_tested, lengths_tested, shell_diameter,
};
use crate::sums::{Sums, file_sums};
use file::format::Format;
use file::layout;
use file::word::word;
use heads::kind::HeadKind;
use measure::diameter::Diameter;
use refusal::Refusal;

// The diameters of a file with these sums and this DH.
fn diameters_in(s: &[u8], t: Sums, dip_point: Diameter) -> Result<Diameters, Refusal>
    requires some_course { (header_end ≤ length s.now) × (1 ≤ t.count) }
    requires dh { dip_point ≡ diameter (word s.now dh_at) }
    ensures { result ≡ diameters_judged s.now t }
{
    let d1 = shell_diameter(t);
    let d2 = head_diameter(t, word(s, layout::LEFT), word(s, layout::RIGHT));
    diameters_of(d1, d2, dip_point)
}

// Refusal 14 of the file's heads.
fn heads_in(s: &[u8], d2: Diameter) -> Result<(), Refusal>
    requires { header_end ≤ length s.now }
    ensures { result ≡ verdict (head_length_test (kind_of (word s.now kind_at)) (diameter_units d2) (word s.now l3_at) ∷ []) }
{
    let kind = HeadKind::of(word(s, layout::KIND));
    heads_tested(d2, kind, word(s, layout::L3))
}

// A file that passes refusals 1 to 5: refusals 6, 7 and 14.
pub fn measured(f: Format, s: &[u8]) -> Result<Diameters, Refusal>
    requires { NumbersFit f s.now }
    ensures { result ≡ judged_by f s.now (verdict (dimension_tests f s.now)) }
{
    let t = file_sums(f, s);
    lengths_tested(t, word(s, layout::L1))?;
    let dip_point = Diameter::of(u64::from(word(s, layout::DH))).unwrap();
    let found = diameters_in(s, t, dip_point)?;
    heads_in(s, found.d2)?;
    Ok(found)
}
