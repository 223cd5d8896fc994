// Reading files of each kind.
ghost use Rattle.std.specs.Prelude.{◌≡◌};
ghost use Rattle.laws.specs.Split.{end_of};
ghost use Rattle.files.specs.Judged.{judged_file, judged_told};
ghost use Rattle.files.specs.Reading.{found_at, found_told};
ghost use Rattle.capi.specs.Kinds.{kind_by};
ghost use Rattle.capi.specs.Told.{in_numbers, Tells};

use crate::told::Numbers;
use crate::{kinds, told};
use files::judge::Fault;
use files::read::NoRecord;
use files::{judge, read};

// Judging: 0, and how many records; 4, and the fault.
impl From<Result<usize, Fault>> for Numbers {
    ghost from_gives = { λ a n. n ≡ in_numbers 0 (judged_told a) };

    fn from(judged: Result<usize, Fault>) -> Numbers {
        match judged {
            Ok(n) => told::with(0, n),
            Err(fault) => told::fault(fault.at, fault.cause),
        }
    }
}

// What stands at a place: 0; 4, and the fault; 7.
impl From<Result<(), NoRecord>> for Numbers {
    ghost from_gives = { λ a n. n ≡ in_numbers 0 (found_told a) };

    fn from(found: Result<(), NoRecord>) -> Numbers {
        match found {
            Ok(()) => told::alone(0),
            Err(NoRecord::Fault(fault)) => told::fault(fault.at, fault.cause),
            Err(NoRecord::Beyond) => told::alone(7),
        }
    }
}

// A file of a kind: 0, and how many records it has; or 4, and the place of its first faulty record, the field in it (0: none) and the number of
// the cause.
pub fn dagskimra_judge(
    kind: u8,
    file: &[u8],
    more: &mut u64,
    field: &mut u64,
    cause: &mut u64,
) -> u8
    ensures { Tells (judged_told (judged_file (kind_by kind) file.now)) result more.new field.new cause.new }
{
    let j = judge::judge(kinds::kind_by(kind), file);
    let t = Numbers::from(j);
    *more = t.first;
    *field = t.second;
    *cause = t.third;
    t.number
}

// What stands at a place of a file: 0 a record; 4 the file has a fault, told as judging does; 7 the place is beyond its records.
pub fn dagskimra_find(
    kind: u8,
    file: &[u8],
    place: usize,
    more: &mut u64,
    field: &mut u64,
    cause: &mut u64,
) -> u8
    ensures { Tells (found_told (found_at (kind_by kind) file.now place)) result more.new field.new cause.new }
{
    let f = read::find(kinds::kind_by(kind), file, place);
    let found = Numbers::from(f);
    *more = found.first;
    *field = found.second;
    *cause = found.third;
    found.number
}

// Where the line that starts at `at` ends: at its CR, or at the file's end. The next one starts behind the CR.
pub fn dagskimra_line_end(file: &[u8], at: usize) -> usize
    ensures { result ≡ end_of 13 file.now at }
{
    read::line_end(file, at)
}
