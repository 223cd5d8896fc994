// Whether a line is a record.
ghost use Rattle.std.specs.Prelude.{◌≡◌};
ghost use Rattle.layout.specs.Report.{report_of};
ghost use Rattle.layout.specs.Correction.{correction_of};
ghost use Rattle.layout.specs.Request.{request_of};
ghost use Rattle.records.specs.Record.{is_record};

use crate::names::kind::FileKind;
use layout::correction::Correction;
use layout::report::Report;
use layout::request::Request;

// Whether a line is a record of a file of this kind.
#[tactic(auto, unfolding(crate::specs::Record::is_record))]
pub fn is_record(kind: FileKind, line: &[u8]) -> bool
    ensures { result ≡ is_record kind line.now }
{
    match kind {
        FileKind::Default | FileKind::Response => Report::read(line).is_some(),
        FileKind::Correction => Correction::read(line).is_some(),
        FileKind::Request => Request::read(line).is_some(),
    }
}
