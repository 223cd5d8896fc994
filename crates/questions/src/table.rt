// Lines of the number table and their entries, for any place of any bytes.
ghost use Rattle.std.specs.Prelude.{◌≡◌};
ghost use Rattle.questions.specs.Shown.{no_entry, lines_shown, number_shown, entry_shown};

use entries::entry::Entry;
use fields::number::{Digits, Number};
use store::numbers::lines;

// How many lines there are, and at most as many as the table takes.
#[tactic(auto, unfolding(crate::specs::Shown::lines_shown))]
pub fn count(table: &[u8]) -> usize
    ensures { result ≡ lines_shown table.now }
{
    if table.len() < 2 {
        return 0;
    }
    lines::line_count(table).min(lines::NUMBERS)
}

// The number of a line; one of no digits where there is none. No Option: `number_shown` and `entry_shown` say what stands there.
#[tactic(auto, unfolding(crate::specs::Shown::number_shown))]
pub fn number_at(table: &[u8], i: usize) -> Number
    ensures { result ≡ number_shown table.now i }
{
    if lines::NUMBERS <= i || table.len() < lines::TABLE_LENGTH {
        return Number {
            first: Digits::EMPTY,
            last: Digits::EMPTY,
        };
    }
    lines::line_at(table, i).number
}

// The entry of no line.
pub(crate) fn no_entry() -> Entry
    ensures { result ≡ no_entry }
{
    let none = entries::entry::line_in(None);
    entries::entry::first(none)
}

// The stored entry of a line.
#[tactic(auto, unfolding(crate::specs::Shown::entry_shown))]
pub fn entry_at(entries: &[u8], i: usize) -> Entry
    ensures { result ≡ entry_shown entries.now i }
{
    if lines::NUMBERS <= i || entries.len() < store::readable::ENTRIES_LENGTH {
        return no_entry();
    }
    store::entry_slots::entry::entry_at(entries, i)
}
