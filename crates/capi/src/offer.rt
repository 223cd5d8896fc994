// Filing a file.
ghost use Rattle.std.specs.Prelude.{◌≡◌};
ghost use Rattle.store.specs.Reads.{lent};
ghost use Rattle.filing.specs.checking.Answers.{answer_told};
ghost use Rattle.capi.specs.Told.{in_numbers};
ghost use Rattle.capi.specs.Offer.{filable_by, day_for, FilesAs};

use crate::days::NO_DAY;
use crate::told;
use crate::told::Numbers;
use calendar::dates::CalendarDays;
use filing::checking::answer::NotFiled;
use filing::entering::kind::Filable;
use filing::file;

// The kind that is filed: 0 default, any other number correction.
#[tactic(auto, unfolding(crate::specs::Offer::filable_by))]
fn filable_by(kind: u8) -> Filable
    ensures { result ≡ filable_by kind }
{
    if kind == 0 {
        Filable::Default
    } else {
        Filable::Correction
    }
}

// The publication day; a kind that is neither 0 nor 1 is not filed, and so has no day.
#[tactic(auto, unfolding(crate::specs::Offer::day_for))]
fn day_for(kind: u8, day: u16) -> u16
    ensures { result ≡ day_for kind day }
{
    if kind <= 1 { day } else { NO_DAY }
}

// Filing: 0, and the count of the journal records; 44; 1, 2, 3; 4, and the fault; 5.
impl From<Result<usize, NotFiled>> for Numbers {
    ghost from_gives = { λ a n. n ≡ in_numbers 0 (answer_told a) };

    fn from(answer: Result<usize, NotFiled>) -> Numbers {
        match answer {
            Ok(n) => told::with(0, n),
            Err(NotFiled::Unreadable) => told::alone(44),
            Err(NotFiled::NoCode) => told::alone(1),
            Err(NotFiled::NoDay) => told::alone(2),
            Err(NotFiled::FiledAlready) => told::alone(3),
            Err(NotFiled::Fault(at, cause)) => told::fault(at, cause),
            Err(NotFiled::Full) => told::alone(5),
        }
    }
}

// Files a file: 0, and the count of the journal records whose number it names; or 44, 1, 2, 3, 4 with the place of its first faulty record, the
// field in it (0: none) and the number of the cause, 5, and no byte of the buffers changes.
pub fn dagskimra_file(
    table: &[u8],
    files: &mut [u8],
    regular: &mut [u8],
    corrections: &mut [u8],
    entries: &mut [u8],
    kind: u8,
    publisher: &[u8],
    day: u16,
    text: &[u8],
    more: &mut u64,
    field: &mut u64,
    cause: &mut u64,
) -> u8
    ensures { FilesAs (lent table.now files.old regular.old corrections.old entries.old) kind publisher.now day text.now result more.new field.new cause.new (lent table.now files.new regular.new corrections.new entries.new) }
{
    let which = filable_by(kind);
    let on = day_for(kind, day);
    let a = file::file(
        table,
        files,
        regular,
        corrections,
        entries,
        which,
        publisher,
        CalendarDays(on),
        text,
    );
    let t = Numbers::from(a);
    *more = t.first;
    *field = t.second;
    *cause = t.third;
    t.number
}
