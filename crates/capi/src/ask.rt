// Asking a whole store: 44 before all else.
ghost use Rattle.std.specs.Prelude.{◌≡◌};
ghost use Rattle.store.specs.Reads.{lent, reads};
ghost use Rattle.asking.specs.Numbers.{why_told, asked_told};
ghost use Rattle.asking.specs.answering.Whole.{number_given, why_asked, record_asked};
ghost use Rattle.asking.specs.answering.Figure.{figure_asked};
ghost use Rattle.capi.specs.Told.{in_numbers};
ghost use Rattle.capi.specs.Ask.{journal_by, nowhere, TellsWhy, TellsRecord, TellsFigure};

use crate::told::Numbers;
use crate::{show, told};
use asking::answer::{NoRecord, NotShown};
use asking::answering::{figure, whole};
use asking::pairs::Pair;
use asking::record::ShownRecord;
use store::journals::records::Journal;

// ---- answers as numbers
// What stands for no place in the regular journal: it is beyond all reports.
pub const NOWHERE: u64 = 8192;

// Why: 0, and the places of a pair where there is one; 12; 44.
impl From<Result<Option<Pair>, NotShown>> for Numbers {
    ghost from_gives = { λ w n. n ≡ in_numbers nowhere (why_told w) };

    fn from(why: Result<Option<Pair>, NotShown>) -> Numbers {
        match why {
            Ok(Some(pair)) => Numbers {
                first: pair.first.place as u64,
                second: pair.second.place as u64,
                ..Numbers::without(0, NOWHERE)
            },
            Ok(None) => Numbers::without(0, NOWHERE),
            Err(e) => Numbers::without(show::number(e), NOWHERE),
        }
    }
}

// A record: 0, and what is shown of it; 7; 44.
impl From<Result<ShownRecord, NoRecord>> for Numbers {
    ghost from_gives = { λ r n. n ≡ in_numbers 0 (asked_told r) };

    fn from(record: Result<ShownRecord, NoRecord>) -> Numbers {
        match record {
            Ok(r) => Numbers {
                number: 0,
                first: r.shown.publisher.0 as u64,
                second: r.shown.day.0 as u64,
                third: r.shown.place as u64,
                fourth: verdict::verdicts::number(r.shown.verdict) as u64,
            },
            Err(NoRecord::Beyond) => told::alone(7),
            Err(NoRecord::Unreadable) => told::alone(44),
        }
    }
}

// The journal by number: 0 the regular one, any other the correction journal.
#[tactic(auto, unfolding(crate::specs::Ask::journal_by))]
fn journal_by(journal: u8) -> Journal
    ensures { result ≡ journal_by journal }
{
    if journal == 0 {
        Journal::Regular
    } else {
        Journal::Correction
    }
}

// ---- what is exported
// Why a number stands where it does: 0, and the places in the regular journal of the two reports of its last confirmed pair, the one
// processed first coming first, or 8192 twice where there is none; 12 for a number that is not in the table; 44.
pub fn dagskimra_why<'a>(
    table: &[u8],
    files: &'a [u8],
    regular: &'a [u8],
    corrections: &'a [u8],
    entries: &[u8],
    first: &[u8],
    last: &[u8],
    one: &mut u64,
    two: &mut u64,
) -> u8
    ensures { TellsWhy (why_asked (reads (lent table.now files.now regular.now corrections.now entries.now)) (number_given first.now last.now)) result one.new two.new }
{
    let number = whole::given(first, last);
    let w = whole::why(table, files, regular, corrections, entries, number);
    let t = Numbers::from(w);
    *one = t.first;
    *two = t.second;
    t.number
}

// The record at a place of a journal: 0, with its publisher, publication day, place in its file and verdict; 7 for a place beyond; 44.
pub fn dagskimra_record<'a>(
    table: &[u8],
    files: &'a [u8],
    regular: &'a [u8],
    corrections: &'a [u8],
    entries: &[u8],
    journal: u8,
    place: usize,
    publisher: &mut u64,
    day: &mut u64,
    at: &mut u64,
    verdict: &mut u64,
) -> u8
    ensures { TellsRecord (record_asked (reads (lent table.now files.now regular.now corrections.now entries.now)) (journal_by journal) place) result publisher.new day.new at.new verdict.new }
{
    let which = journal_by(journal);
    let x = whole::record(table, files, regular, corrections, entries, which, place);
    let t = Numbers::from(x);
    *publisher = t.first;
    *day = t.second;
    *at = t.third;
    *verdict = t.fourth;
    t.number
}

// The figure: 0, and how many stored entries differ from those worked out from the journals; 44.
pub fn dagskimra_figure<'a>(
    table: &[u8],
    files: &'a [u8],
    regular: &'a [u8],
    corrections: &'a [u8],
    entries: &[u8],
    more: &mut u64,
) -> u8
    ensures { TellsFigure (figure_asked (reads (lent table.now files.now regular.now corrections.now entries.now))) result more.new }
{
    let f = figure::figure(table, files, regular, corrections, entries);
    let t = Numbers::from(f);
    *more = t.first;
    t.number
}
