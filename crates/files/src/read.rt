// The record at a place of a file: its bytes, as a part of the lent file.
ghost use Rattle.std.specs.Prelude.{◌≡◌};
ghost use Rattle.laws.specs.Split.{end_of};
ghost use Rattle.files.specs.declared.read.NoRecord.{NoRecord};
ghost use Rattle.files.specs.Reading.{found_at, record_at};

use crate::judge::Fault;
use records::names::kind::FileKind;

// Why no record stands at a place of a file: 4, the file has a fault; or 7, the place is beyond the records.
#[derive(Clone, Copy)]
pub enum NoRecord {
    Fault(Fault),
    Beyond,
}

impl From<Fault> for NoRecord {
    ghost from_gives = { λ fault none. none ≡ NoRecord.Fault fault };

    fn from(fault: Fault) -> NoRecord {
        NoRecord::Fault(fault)
    }
}

// Whether a record stands at a place of a file.
#[tactic(auto, unfolding(crate::specs::Reading::found_at))]
pub fn find(kind: FileKind, file: &[u8], place: usize) -> Result<(), NoRecord>
    ensures { result ≡ found_at kind file.now place }
{
    let n = crate::judge::judge(kind, file)?;
    if place < n {
        Ok(())
    } else {
        Err(NoRecord::Beyond)
    }
}

// The bytes of the record at a place; nothing where there is none. A file with a fault has none.
#[tactic(auto, using(crate::proofs::ReadLaws::record_line, crate::proofs::ReadLaws::record_beyond))]
pub fn record_bytes<'a>(kind: FileKind, file: &'a [u8], place: usize) -> &'a [u8]
    ensures { result.now ≡ record_at kind file.now place }
{
    let n = crate::judge::judge(kind, file).unwrap_or(0);
    if n <= place {
        return &file[..0];
    }
    text::piece(file, b'\r', place)
}

// Where the line that starts at `at` ends. Whoever has judged a file goes through its records by this: the first starts at 0, each other
// one behind the CR that ends the one before it.
pub fn line_end(file: &[u8], at: usize) -> usize
    ensures { result ≡ end_of 13 file.now at }
{
    text::field_end(file, at, b'\r')
}
