// How many records a file has, or its first fault, found in one pass.
ghost use Rattle.std.specs.Prelude.{◌≡◌, ◌+◌, ◌≤◌, ◌<◌, length, drop};
ghost use Rattle.laws.specs.Split.{split, between};
ghost use Rattle.faults.specs.Record.{record_fault};
ghost use Rattle.files.specs.Judged.{place_at, fault_of, at_line, closed, unended, last_line, judged, judged_one, judged_file};

use faults::cause::{Cause, FaultPlace};
use records::names::kind::FileKind;

// The first fault of a file: where it is, and why.
#[derive(Clone, Copy)]
pub struct Fault {
    pub at: FaultPlace,
    pub cause: Cause,
}

// A fault of the whole file stands at the place `i`, in no field.
fn at_line(i: usize, cause: Cause) -> Fault
    ensures { result ≡ fault_of (place_at i 0) cause }
{
    Fault {
        at: FaultPlace { place: i, field: 0 },
        cause,
    }
}

// A fault in a field of the record at the place `i`.
fn at_field(i: usize, field: usize, cause: Cause) -> Fault
    ensures { result ≡ fault_of (place_at i field) cause }
{
    Fault {
        at: FaultPlace { place: i, field },
        cause,
    }
}

// Whether the line at the place `i` is a record.
fn check(kind: FileKind, line: &[u8], i: usize) -> Result<(), Fault>
    ensures { result ≡ at_line i (record_fault kind line.now) }
{
    faults::record::check(kind, line).map_err(|fault| at_field(i, fault.field, fault.cause))
}

// The line from `at` to `end`, at the place `i`, begins as a closing record does.
fn judge_closing(file: &[u8], at: usize, end: usize, i: usize) -> Result<usize, Fault>
    requires { (at ≤ end) × ((end < length file.now) × (i ≤ at)) }
    ensures { result ≡ closed i (between file.now at end) (split 13 (drop (end + 1) file.now)) }
{
    let count = (i + 1) as u64;
    if !records::closing::is_closing(&file[at..end], count) {
        return Err(at_line(i, Cause::Closing));
    }
    if end + 1 < file.len() {
        return Err(at_line(i + 1, Cause::After));
    }
    Ok(i)
}

// A line that no CR ends.
#[tactic(auto, unfolding(crate::specs::Judged::unended))]
fn judge_unended(kind: FileKind, line: &[u8], i: usize) -> Result<usize, Fault>
    ensures { result ≡ unended kind i line.now }
{
    check(kind, line, i)?;
    Err(at_field(i, faults::record::end_pos(kind), Cause::Length))
}

// What stands behind the last CR.
#[tactic(auto, using(std::proofs::lemmas::Bool::Decides::nat_tests), unfolding(crate::specs::Judged::last_line))]
fn judge_last(kind: FileKind, line: &[u8], i: usize) -> Result<usize, Fault>
    ensures { result ≡ last_line kind i line.now }
{
    if line.is_empty() || records::closing::begins(line) {
        return Err(at_line(i, Cause::Closing));
    }
    judge_unended(kind, line, i)
}

// A file with a closing record. Its lines are searched one by one: where one ends the next begins, so a chain over all lines would look for
// ends that a fault makes needless.
fn judge_closed(kind: FileKind, file: &[u8]) -> Result<usize, Fault>
    ensures { result ≡ judged kind 0 (split 13 file.now) }
{
    let mut at: usize = 0;
    let mut i: usize = 0;
    let mut end = text::field_end(file, 0, b'\r');
    while end < file.len() {
        if records::closing::begins(&file[at..end]) {
            return judge_closing(file, at, end, i);
        }
        check(kind, &file[at..end], i)?;
        at = end + 1;
        i += 1;
        end = text::field_end(file, at, b'\r');
    }
    judge_last(kind, &file[at..], i)
}

// A file of one record, without a closing record.
fn judge_one(kind: FileKind, file: &[u8]) -> Result<usize, Fault>
    ensures { result ≡ judged_one kind (split 13 file.now) }
{
    let end = text::field_end(file, 0, b'\r');
    if file.len() <= end {
        return judge_unended(kind, file, 0);
    }
    check(kind, &file[..end], 0)?;
    if end + 1 != file.len() {
        return Err(at_line(1, Cause::After));
    }
    Ok(1)
}

#[tactic(auto, unfolding(crate::specs::Judged::judged_file))]
pub fn judge(kind: FileKind, file: &[u8]) -> Result<usize, Fault>
    ensures { result ≡ judged_file kind file.now }
{
    if kind.has_closing() {
        return judge_closed(kind, file);
    }
    judge_one(kind, file)
}
