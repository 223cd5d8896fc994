// The entry of a number in 100 bytes: holder and last confirmed date, then eight places.
ghost use Rattle.std.specs.Prelude.{◌≡◌};
ghost use Rattle.store.specs.Reads.{lent, reads};
ghost use Rattle.asking.specs.Numbers.{not_shown_told};
ghost use Rattle.asking.specs.answering.Whole.{number_given, entry_asked, before_asked};
ghost use Rattle.capi.specs.Show.{ShowsEntry};

use asking::answer::NotShown;
use asking::answering::whole;
use entries::entry::Entry;
use store::entry_slots::entry;

// The number of an answer that shows nothing.
pub(crate) fn number(a: NotShown) -> u8
    ensures { result ≡ (not_shown_told a).number }
{
    match a {
        NotShown::UnknownNumber => 12,
        NotShown::Unreadable => 44,
    }
}

// Writes the entry that an answer shows; 41 where there is no room for it.
fn put(a: Result<Entry, NotShown>, out: &mut [u8]) -> u8
    ensures { ShowsEntry a out.old result out.new }
{
    let shown = match a {
        Ok(e) => e,
        Err(e) => return number(e),
    };
    if out.len() < entry::WIDTH {
        return 41;
    }
    entry::put_entry(out, 0, shown);
    0
}

// The stored entry of a number: 0, and its 100 bytes; 44; 12 for a number that is not in the table; 41 where `out` is too short.
pub fn dagskimra_entry<'a>(
    table: &[u8],
    files: &'a [u8],
    regular: &'a [u8],
    corrections: &'a [u8],
    entries: &[u8],
    first: &[u8],
    last: &[u8],
    out: &mut [u8],
) -> u8
    ensures { ShowsEntry (entry_asked (reads (lent table.now files.now regular.now corrections.now entries.now)) (number_given first.now last.now)) out.old result out.new }
{
    let n = whole::given(first, last);
    let a = whole::entry(table, files, regular, corrections, entries, n);
    put(a, out)
}

// The same before the file at `file` arrived, counted from 0; all files where it is beyond them.
pub fn dagskimra_entry_before<'a>(
    table: &[u8],
    files: &'a [u8],
    regular: &'a [u8],
    corrections: &'a [u8],
    entries: &[u8],
    file: usize,
    first: &[u8],
    last: &[u8],
    out: &mut [u8],
) -> u8
    ensures { ShowsEntry (before_asked (reads (lent table.now files.now regular.now corrections.now entries.now)) file (number_given first.now last.now)) out.old result out.new }
{
    let n = whole::given(first, last);
    let a = whole::before(table, files, regular, corrections, entries, file, n);
    put(a, out)
}
