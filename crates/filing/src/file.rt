// Filing a file, or refusing it.
ghost use Rattle.std.specs.Prelude.{◌≡◌};
ghost use Rattle.filing.specs.entering.Entering.{filed_as, Enterable};
ghost use Rattle.store.specs.Reads.{lent};
ghost use Rattle.filing.specs.Effect.{Files, Accepted};

use crate::checking::answer::NotFiled;
use crate::checking::check;
use crate::entering::enter;
use crate::entering::kind::Filable;
use crate::renewing::renew;
use calendar::dates::CalendarDays;
use fields::code::Code;
use store::readable;

// Enters a file of m records that has passed the checks, works out the numbers that it names, and counts the records that this took.
fn accept(
    table: &[u8],
    files: &mut [u8],
    regular: &mut [u8],
    corrections: &mut [u8],
    entries: &mut [u8],
    kind: Filable,
    publisher: Code,
    day: CalendarDays,
    text: &[u8],
    m: usize,
) -> usize
    requires { Enterable (lent table.now files.old regular.old corrections.old entries.old) kind publisher.0 day.0 text.now m }
    ensures { Accepted (filed_as kind publisher.0 day.0 text.now) (lent table.now files.old regular.old corrections.old entries.old) result (lent table.now files.new regular.new corrections.new entries.new) }
{
    enter::enter(files, regular, corrections, kind, publisher, day, text, m);
    renew::renew(table, files, regular, corrections, entries)
}

// Files a file of a kind from a publisher on its publication day: 44, 1, 2, 3, 4, 5 in this order, and no byte changes; else 0, and exactly
// this file's records have joined their journal behind the stored ones, the entries of the numbers named are worked out afresh, and the
// others keep theirs.
pub fn file(
    table: &[u8],
    files: &mut [u8],
    regular: &mut [u8],
    corrections: &mut [u8],
    entries: &mut [u8],
    kind: Filable,
    publisher: &[u8],
    day: CalendarDays,
    text: &[u8],
) -> Result<usize, NotFiled>
    ensures { Files (lent table.now files.old regular.old corrections.old entries.old) kind publisher.now day.0 text.now result (lent table.now files.new regular.new corrections.new entries.new) }
{
    if !readable::readable(table, files, regular, corrections, entries) {
        return Err(NotFiled::Unreadable);
    }
    let (code, m) = check::check(files, kind, publisher, day, text)?;
    Ok(accept(
        table,
        files,
        regular,
        corrections,
        entries,
        kind,
        code,
        day,
        text,
        m,
    ))
}
