// Working out all entries of a store again, as when the holiday list has changed.
ghost use Rattle.store.specs.Reads.{lent};
ghost use Rattle.capi.specs.Again.{ReworksAs};

use crate::told::Numbers;
use reworking::rework;
use reworking::rework::ALL_FILES;

// Works out every entry again: 0, how many were others, and the lines of these at the beginning of the list; 44, also for a list without room
// for every line, and nothing changes.
pub fn dagskimra_rework<'a>(
    table: &[u8],
    files: &'a [u8],
    regular: &'a [u8],
    corrections: &'a [u8],
    entries: &mut [u8],
    list: &mut [u16],
    more: &mut u64,
) -> u8
    ensures { ReworksAs (lent table.now files.now regular.now corrections.now entries.old) list.old result more.new entries.new list.new }
{
    let a = rework::rework(table, files, regular, corrections, entries, ALL_FILES, list);
    let t = Numbers::from(a);
    *more = t.first;
    t.number
}
