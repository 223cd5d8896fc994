// A store opened for a question.
ghost use Rattle.std.specs.Prelude.{◌≤◌, length, Err, IfOk};
ghost use Rattle.desk.specs.declared.failure.Failure.TheVariants.{Refused};
ghost use Rattle.disk.specs.Books.{buffers_of};
ghost use Rattle.commands.specs.Status.{Ends, Opens};

use crate::end;
use desk::place::PATH_MAX;
use desk::{Ended, Failure, Host, args};
use disk::parts::HolidayList;
use disk::saved::LoadError;
use disk::{Books, saved};
use words::refusal::Refusal;

// The store is damaged: `refused` 44.
pub fn damaged(rt: &impl Host, folder: &[u8]) -> Ended
    ensures { Ends (Err Refused) result }
{
    refused(rt, folder, Refusal::Damaged)
}

// Says why, and prints `refused` and the number.
pub fn refused(rt: &impl Host, what: &[u8], why: Refusal) -> Ended
    ensures { Ends (Err Refused) result }
{
    words::refusal::refused(rt, what, why);
    end::refused(rt, why as u8)
}

// The folder of the store, which is argument 2.
pub fn folder<'a>(
    rt: &impl Host,
    path: &'a mut [u8; PATH_MAX],
    usage: &str,
) -> Result<&'a [u8], Failure>
    ensures { IfOk result (λ folder. length folder.now ≤ 4096) }
{
    args::path(rt, 2, path).ok_or_else(|| words::usage(
        rt,
        b"STORE is empty or too long",
        usage.as_bytes(),
    ))
}

// Loads the store; or the end of the command, where it can't go on and has told why.
pub fn open(rt: &impl Host, folder: &[u8], books: &mut Books) -> Ended
    ensures { Opens result (buffers_of books.new) }
{
    match saved::load(rt, folder, books) {
        Ok(HolidayList::Own) => Ok(()),
        Ok(HolidayList::Other) => Err(words::wants_rework(rt, folder)),
        Err(LoadError::Missing) => Err(Failure::Fault),
        Err(LoadError::Damaged) => damaged(rt, folder),
    }
}
