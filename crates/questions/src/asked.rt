// What is asked of the libraries. The store has been judged when it was opened, so that a look at it is its answer.
ghost use Rattle.std.specs.Prelude.{◌≡◌};
ghost use Rattle.store.specs.Reads.{lent};
ghost use Rattle.asking.specs.Looks.{standing_looked};
ghost use Rattle.questions.specs.Shown.{entry_seen};
ghost use Rattle.reworking.specs.Reworking.{all_files, Reworks};

use crate::table;
use asking::answer::Unreadable;
use asking::stand;
use entries::entry::Entry;
use reworking::rework;
use reworking::rework::ALL_FILES;

// The entry of a line over the first n files.
pub fn before(
    lines: &[u8],
    files: &[u8],
    n: usize,
    regular: &[u8],
    corrections: &[u8],
    i: usize,
) -> Entry
    ensures { result ≡ entry_seen (standing_looked lines.now files.now regular.now corrections.now n i) }
{
    match stand::look(lines, files, n, regular, corrections, i) {
        Ok(s) => s.entry,
        Err(_) => table::no_entry(),
    }
}

// Every entry worked out over all files and written, and the places of the lines whose entry was another one.
pub fn reworked(
    lines: &[u8],
    files: &[u8],
    regular: &[u8],
    corrections: &[u8],
    entries: &mut [u8],
    list: &mut [u16],
) -> Result<usize, Unreadable>
    ensures { Reworks (lent lines.now files.now regular.now corrections.now entries.old) all_files list.old result entries.new list.new }
{
    rework::rework(lines, files, regular, corrections, entries, ALL_FILES, list)
}
