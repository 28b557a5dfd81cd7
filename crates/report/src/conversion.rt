// An old survey file in today's format, byte for byte; or its refusal.
ghost use Rattle.refusal.specs.Test.{verdict_in};
ghost use Rattle.rewrite.specs.Rewritten.{most_bytes};
ghost use Rattle.convert.specs.Converted.{converted};
ghost use Rattle.said.specs.Said.{Told, verdict_words};
ghost use Rattle.report.specs.Report.{conversion_text};

use convert::convert_48;
use said::Said;
use said::file::file_said;

// What is said of a file with a header of 48 bytes. A memory of rewrite's MOST_BYTES and one of said's ERR_SIZE bytes have room for all of it.
pub fn conversion_said(survey: &[u8], out: &mut [u8], err: &mut [u8]) -> Said
    ensures { Told most_bytes (conversion_text (converted survey.now)) (verdict_words (verdict_in (converted survey.now))) out.old out.new err.old err.new result }
{
    match convert_48(survey) {
        Ok(c) => file_said(Ok(&c.file[..c.length]), out, err),
        Err(r) => file_said(Err(r), out, err),
    }
}
