// What filing answers.
ghost use Rattle.std.specs.Prelude.{◌≡◌};
ghost use Rattle.filing.specs.checking.Answers.{answer_number};

use faults::cause::{Cause, FaultPlace};

// Why a file is refused: the buffers don't read as a store, the publisher is no network code, the day is outside the calendar, a file
// alike is filed, a record breaks its layout (where, and why), a limit would be passed. A file that is filed is answered with the count of
// the journal records whose number it names.
#[derive(Clone, Copy)]
pub enum NotFiled {
    Unreadable,
    NoCode,
    NoDay,
    FiledAlready,
    Fault(FaultPlace, Cause),
    Full,
}

// The paper's number of an answer.
pub fn number(a: Result<usize, NotFiled>) -> u8
    ensures { result ≡ answer_number a }
{
    match a {
        Ok(_) => 0,
        Err(NotFiled::Unreadable) => 44,
        Err(NotFiled::NoCode) => 1,
        Err(NotFiled::NoDay) => 2,
        Err(NotFiled::FiledAlready) => 3,
        Err(NotFiled::Fault(_, _)) => 4,
        Err(NotFiled::Full) => 5,
    }
}
