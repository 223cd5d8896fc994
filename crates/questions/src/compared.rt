// Stored entries beside those that are worked out, as they are printed.
use crate::table;
use desk::{Host, Page};
use disk::Books;
use shown::Shown;

// The lines of the table at the places of a list: NUMBER, its entry as stored, and as worked out: HOLDER LAST OPEN each
pub fn list(page: &mut Page<'_, impl Host>, places: &[u16], books: &Books, worked: &[u8]) {
    for &place in places {
        let i = usize::from(place);
        let number = Shown(table::number_at(&books.table, i));
        let stored = Shown(table::entry_at(&books.entries, i));
        let worked = Shown(table::entry_at(worked, i));
        println!(page; "{number}\t{stored}\t{worked}");
    }
}

// WORD N `of` M
pub fn count(page: &mut Page<'_, impl Host>, word: &str, n: usize, books: &Books) {
    println!(page; "{word}\t{n}\tof\t{}", table::count(&books.table));
}
