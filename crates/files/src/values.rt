// The value of the record at a place of a file: a report of a default or a response file, a correction, a request. 4 with the file's first
// fault and its cause, then 7 for a place beyond its records.
ghost use Rattle.std.specs.Prelude.{◌≡◌};
ghost use Rattle.files.specs.Values.{report_at, correction_at, request_at};

use crate::read::{NoRecord, find};
use layout::correction::Correction;
use layout::report::Report;
use layout::request::Request;
use records::names::kind::FileKind;

#[tactic(auto, unfolding(crate::specs::Values::report_at))]
pub fn read_report(file: &[u8], place: usize) -> Result<Report, NoRecord>
    ensures { result ≡ report_at file.now place }
{
    find(FileKind::Default, file, place)?;
    Report::read(text::piece(file, b'\r', place)).ok_or(NoRecord::Beyond)
}

#[tactic(auto, unfolding(crate::specs::Values::correction_at))]
pub fn read_correction(file: &[u8], place: usize) -> Result<Correction, NoRecord>
    ensures { result ≡ correction_at file.now place }
{
    find(FileKind::Correction, file, place)?;
    Correction::read(text::piece(file, b'\r', place)).ok_or(NoRecord::Beyond)
}

#[tactic(auto, unfolding(crate::specs::Values::request_at))]
pub fn read_request(file: &[u8], place: usize) -> Result<Request, NoRecord>
    ensures { result ≡ request_at file.now place }
{
    find(FileKind::Request, file, place)?;
    Request::read(text::piece(file, b'\r', place)).ok_or(NoRecord::Beyond)
}
