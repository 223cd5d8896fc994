// The entry of a number: as the store holds it, and as it stood before a file arrived.
ghost use Rattle.std.specs.Prelude.{◌≡◌};
ghost use Rattle.asking.specs.Standing.{has_entries};
ghost use Rattle.asking.specs.Looks.{entry_looked, before_looked};

use crate::looks::NotSeen;
use crate::{showable, stand};
use entries::entry::Entry;
use fields::number::Number;
use store::numbers::{find, lines};
use store::readable::ENTRIES_LENGTH;
use working::filed::{Filed, Journals};

// Whether table and entries have room, and how many lines there are is in range.
#[tactic(auto, unfolding(crate::specs::Standing::has_entries))]
fn has_entries(table: &[u8], entries: &[u8]) -> bool
    ensures { result ≡ has_entries table.now entries.now }
{
    lines::TABLE_LENGTH <= table.len()
        && ENTRIES_LENGTH <= entries.len()
        && lines::line_count(table) <= lines::NUMBERS
}

// The stored entry of a number: a look.
#[tactic(auto, using(crate::proofs::Standings::has_room, crate::proofs::Lines::found_below, crate::proofs::Standings::entry_unshowable, crate::proofs::Standings::entry_unknown, crate::proofs::Standings::entry_here))]
pub fn look(table: &[u8], entries: &[u8], number: Number) -> Result<Entry, NotSeen>
    ensures { result ≡ entry_looked table.now entries.now number }
{
    if !has_entries(table, entries) {
        return Err(NotSeen::Unshowable);
    }
    let Some(i) = find::find_line(table, number) else {
        return Err(NotSeen::UnknownNumber);
    };
    Ok(store::entry_slots::entry::entry_at(entries, i))
}

// The entry of a number before the file at n arrived: a look.
#[tactic(auto, using(crate::proofs::Showing::showable, crate::proofs::Lines::found_below, crate::proofs::Standings::before_unshowable, crate::proofs::Standings::before_unknown))]
pub fn look_before(
    table: &[u8],
    files: &[u8],
    n: usize,
    regular: &[u8],
    corrections: &[u8],
    number: Number,
) -> Result<Entry, NotSeen>
    ensures { result ≡ before_looked table.now files.now regular.now corrections.now n number }
{
    if !showable::showable(table, files, regular, corrections) {
        return Err(NotSeen::Unshowable);
    }
    let Some(i) = find::find_line(table, number) else {
        return Err(NotSeen::UnknownNumber);
    };
    let filed = Filed {
        files,
        n: stand::files_among(files, n),
        journals: Journals {
            regular,
            corrections,
        },
    };
    Ok(stand::standing_at(table, &filed, i).entry)
}
