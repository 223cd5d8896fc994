// The questions to a whole store: whether it reads is judged first, and 44 comes before all else. A number is given by its two fields.
ghost use Rattle.std.specs.Prelude.{◌≡◌};
ghost use Rattle.store.specs.Reads.{lent, reads};
ghost use Rattle.asking.specs.answering.Whole.{number_given, entry_asked, before_asked, why_asked, record_asked};

use crate::answer::{NoRecord, NotShown};
use crate::pairs::Pair;
use crate::record::ShownRecord;
use crate::{entry, record, why};
use entries::entry::Entry;
use fields::number::{Digits, Number};
use store::journals::records::Journal;
use store::readable;

// The number that two fields give.
pub fn given(first: &[u8], last: &[u8]) -> Option<Number>
    ensures { result ≡ number_given first.now last.now }
{
    let digits = Digits::read(first)?;
    Number::read(digits, last)
}

// The stored entry of a number.
pub fn entry<'a>(
    table: &[u8],
    files: &'a [u8],
    regular: &'a [u8],
    corrections: &'a [u8],
    entries: &[u8],
    number: Option<Number>,
) -> Result<Entry, NotShown>
    ensures { result ≡ entry_asked (reads (lent table.now files.now regular.now corrections.now entries.now)) number }
{
    if !readable::readable(table, files, regular, corrections, entries) {
        return Err(NotShown::Unreadable); // no entry is held
    }
    let Some(x) = number else {
        return Err(NotShown::UnknownNumber);
    };
    Ok(entry::look(table, entries, x)?)
}

// The entry of a number before the file at n arrived.
pub fn before<'a>(
    table: &[u8],
    files: &'a [u8],
    regular: &'a [u8],
    corrections: &'a [u8],
    entries: &[u8],
    n: usize,
    number: Option<Number>,
) -> Result<Entry, NotShown>
    ensures { result ≡ before_asked (reads (lent table.now files.now regular.now corrections.now entries.now)) n number }
{
    if !readable::readable(table, files, regular, corrections, entries) {
        return Err(NotShown::Unreadable);
    }
    let Some(x) = number else {
        return Err(NotShown::UnknownNumber);
    };
    Ok(entry::look_before(table, files, n, regular, corrections, x)?)
}

// Why a number stands where it does.
pub fn why<'a>(
    table: &[u8],
    files: &'a [u8],
    regular: &'a [u8],
    corrections: &'a [u8],
    entries: &[u8],
    number: Option<Number>,
) -> Result<Option<Pair>, NotShown>
    ensures { result ≡ why_asked (reads (lent table.now files.now regular.now corrections.now entries.now)) number }
{
    if !readable::readable(table, files, regular, corrections, entries) {
        return Err(NotShown::Unreadable); // no pair is told
    }
    let Some(x) = number else {
        return Err(NotShown::UnknownNumber); // what is no number
    };
    Ok(why::look(table, files, regular, corrections, x)?)
}

// The record at a place of a journal.
pub fn record<'a>(
    table: &[u8],
    files: &'a [u8],
    regular: &'a [u8],
    corrections: &'a [u8],
    entries: &[u8],
    which: Journal,
    place: usize,
) -> Result<ShownRecord, NoRecord>
    ensures { result ≡ record_asked (reads (lent table.now files.now regular.now corrections.now entries.now)) which place }
{
    if !readable::readable(table, files, regular, corrections, entries) {
        return Err(NoRecord::Unreadable);
    }
    Ok(record::look(table, files, regular, corrections, which, place)?)
}
