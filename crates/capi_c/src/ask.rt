// Asking a whole store: 44 before all else.
ghost use Rattle.store.specs.Reads.{lent, reads};
ghost use Rattle.asking.specs.answering.Whole.{number_given, why_asked, record_asked};
ghost use Rattle.asking.specs.answering.Figure.{figure_asked};
ghost use Rattle.capi.specs.Ask.{journal_by, TellsWhy, TellsRecord, TellsFigure};

// ---- what is exported
// Why a number stands where it does: 0, and the places in the regular journal of the two reports of its last confirmed pair, the one
// processed first coming first, or 8192 twice where there is none; 12 for a number that is not in the table; 44.
#[unsafe(no_mangle)]
pub extern "C" fn dagskimra_why<'a>(
    table: &[u8],
    files: &'a [u8],
    regular: &'a [u8],
    corrections: &'a [u8],
    entries: &[u8],
    first: &[u8],
    last: &[u8],
    one: &mut u64,
    two: &mut u64,
) -> u8
    ensures { TellsWhy (why_asked (reads (lent table.now files.now regular.now corrections.now entries.now)) (number_given first.now last.now)) result one.new two.new }
{
    capi::ask::dagskimra_why(
        table,
        files,
        regular,
        corrections,
        entries,
        first,
        last,
        one,
        two,
    )
}

// The record at a place of a journal: 0, with its publisher, publication day, place in its file and verdict; 7 for a place beyond; 44.
#[unsafe(no_mangle)]
pub extern "C" fn dagskimra_record<'a>(
    table: &[u8],
    files: &'a [u8],
    regular: &'a [u8],
    corrections: &'a [u8],
    entries: &[u8],
    journal: u8,
    place: usize,
    publisher: &mut u64,
    day: &mut u64,
    at: &mut u64,
    verdict: &mut u64,
) -> u8
    ensures { TellsRecord (record_asked (reads (lent table.now files.now regular.now corrections.now entries.now)) (journal_by journal) place) result publisher.new day.new at.new verdict.new }
{
    capi::ask::dagskimra_record(
        table,
        files,
        regular,
        corrections,
        entries,
        journal,
        place,
        publisher,
        day,
        at,
        verdict,
    )
}

// The figure: 0, and how many stored entries differ from those worked out from the journals; 44.
#[unsafe(no_mangle)]
pub extern "C" fn dagskimra_figure<'a>(
    table: &[u8],
    files: &'a [u8],
    regular: &'a [u8],
    corrections: &'a [u8],
    entries: &[u8],
    more: &mut u64,
) -> u8
    ensures { TellsFigure (figure_asked (reads (lent table.now files.now regular.now corrections.now entries.now))) result more.new }
{
    capi::ask::dagskimra_figure(table, files, regular, corrections, entries, more)
}
