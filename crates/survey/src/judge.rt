// Refusals 1 to 7 and 14 in their order, and the diameters of a file that none of them is given to.
ghost use Rattle.std.specs.Prelude.{◌≡◌};
ghost use Rattle.refusal.specs.Test.{verdict};
ghost use Rattle.file.specs.SectionLaws.{Readable};
ghost use Rattle.dimensions.specs.Judged.{judged_by};
ghost use Rattle.survey.specs.Tests.{file_tests};

use dimensions::dimensions::Diameters;
use dimensions::judge::measured;
use file::format::Format;
use form::tests::{layout_tested, size_tested};
use readings::tests::numbers_tested;
use refusal::Refusal;

// A file of any bytes, of any length, in a format.
pub fn judged(f: Format, s: &[u8]) -> Result<Diameters, Refusal>
    ensures value { result ≡ judged_by f s.now (verdict (file_tests f s.now)) }
    ensures readable { Readable f }
{
    size_tested(f, s)?;
    layout_tested(f, s)?;
    numbers_tested(f, s)?;
    measured(f, s)
}
