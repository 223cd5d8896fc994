// The entry of a number in 100 bytes: holder and last confirmed date, then eight places.
ghost use Rattle.store.specs.Reads.{lent, reads};
ghost use Rattle.asking.specs.answering.Whole.{number_given, entry_asked, before_asked};
ghost use Rattle.capi.specs.Show.{ShowsEntry};

// The stored entry of a number: 0, and its 100 bytes; 44; 12 for a number that is not in the table; 41 where `out` is too short.
#[unsafe(no_mangle)]
pub extern "C" fn dagskimra_entry<'a>(
    table: &[u8],
    files: &'a [u8],
    regular: &'a [u8],
    corrections: &'a [u8],
    entries: &[u8],
    first: &[u8],
    last: &[u8],
    out: &mut [u8],
) -> u8
    ensures { ShowsEntry (entry_asked (reads (lent table.now files.now regular.now corrections.now entries.now)) (number_given first.now last.now)) out.old result out.new }
{
    capi::show::dagskimra_entry(
        table,
        files,
        regular,
        corrections,
        entries,
        first,
        last,
        out,
    )
}

// The same before the file at `file` arrived, counted from 0; all files where it is beyond them.
#[unsafe(no_mangle)]
pub extern "C" fn dagskimra_entry_before<'a>(
    table: &[u8],
    files: &'a [u8],
    regular: &'a [u8],
    corrections: &'a [u8],
    entries: &[u8],
    file: usize,
    first: &[u8],
    last: &[u8],
    out: &mut [u8],
) -> u8
    ensures { ShowsEntry (before_asked (reads (lent table.now files.now regular.now corrections.now entries.now)) file (number_given first.now last.now)) out.old result out.new }
{
    capi::show::dagskimra_entry_before(
        table,
        files,
        regular,
        corrections,
        entries,
        file,
        first,
        last,
        out,
    )
}
