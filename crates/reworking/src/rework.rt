// Every line's entry worked out afresh and written, and the places of those lines whose stored entry was another.
ghost use Rattle.std.specs.Prelude.{◌≡◌, ◌+◌, ◌*◌, ◌≤◌, ◌<◌, length, take};
ghost use Rattle.store.specs.journals.Reads.{read_files};
ghost use Rattle.store.specs.Reads.{lent};
ghost use Rattle.reworking.specs.Reworking.{Fitting, LineReworked, Noted, LinesReworked, Reworks};

use asking::answer::Unreadable;
use asking::stand;
use store::entry_slots::entry;
use store::numbers::lines;
use store::readable;
use working::filed::{Filed, Journals};
use working::indexing::find::Index;
use working::indexing::tags::Tags;
use working::overview;

// As many files as a store takes: over the first so many of them is over all.
pub const ALL_FILES: usize = store::journals::files::FILES;

// Writes the entry of the line i, worked out over the first files from their index, and answers whether the stored one was another.
fn rework_line(
    table: &[u8],
    index: &Index,
    room: &mut [u64; 10240],
    entries: &mut [u8],
    i: usize,
) -> bool
    requires { (2 + i * 14 + 14 ≤ length table.now) × (i * 100 + 100 ≤ length entries.old) }
    ensures { let f = index.now.filed in LineReworked (take f.n (read_files f.files.now f.journals.regular.now f.journals.corrections.now)) table.now i entries.old entries.new result }
{
    let worked = overview::lines::line_standing(table, index, i, room).entry;
    let stored = entry::entry_at(entries, i);
    entry::put_entry(entries, i, worked);
    !entries::comparing::same_entry(stored, worked)
}

// Lays the place i behind the first `count` of the list where its entry changed, and answers how many stand there then.
fn note(list: &mut [u16], count: usize, i: usize, changed: bool) -> usize
    requires { (count < length list.old) × (count ≤ 1024) × (i < 1024) }
    ensures { Noted list.old count i changed list.new result }
{
    if changed {
        list[count] = i as u16;
        return count + 1;
    }
    count
}

// Works out the first m lines over the first files, and lists those whose entry changed.
fn rework_lines(
    table: &[u8],
    index: &Index,
    room: &mut [u64; 10240],
    entries: &mut [u8],
    m: usize,
    list: &mut [u16],
) -> usize
    requires m_in_bounds { (2 + m * 14 ≤ length table.now) × (m * 100 ≤ length entries.old) × (m ≤ length list.old) × (m ≤ 1024) }
    requires fitting { let f = index.now.filed in Fitting (take f.n (read_files f.files.now f.journals.regular.now f.journals.corrections.now)) table.now m }
    ensures { let f = index.now.filed in LinesReworked (take f.n (read_files f.files.now f.journals.regular.now f.journals.corrections.now)) table.now m entries.old entries.new list.old list.new result }
{
    let mut count = 0;
    for i in 0..m {
        let changed = rework_line(table, index, room, entries, i);
        count = note(list, count, i, changed);
    }
    count
}

// The same with one pass over the journals for all lines.
fn rework_all(table: &[u8], filed: &Filed, entries: &mut [u8], m: usize, list: &mut [u16]) -> usize
    requires m_in_bounds { (2 + m * 14 ≤ length table.now) × (m * 100 ≤ length entries.old) × (m ≤ length list.old) × (m ≤ 1024) }
    requires fitting { let f = filed.now in Fitting (take f.n (read_files f.files.now f.journals.regular.now f.journals.corrections.now)) table.now m }
    ensures { let f = filed.now in LinesReworked (take f.n (read_files f.files.now f.journals.regular.now f.journals.corrections.now)) table.now m entries.old entries.new list.old list.new result }
{
    let mut wanted = [0u64; 10240];
    let mut keys = [0u64; 10240];
    let mut places = [0u64; 10240];
    let mut room = [0u64; 10240];
    overview::lines::want_lines(table, m, &mut wanted);
    let tags = Tags {
        words: &wanted,
        count: m,
    };
    let index = Index::new(*filed, tags, &mut keys, &mut places);
    rework_lines(table, &index, &mut room, entries, m, list)
}

// Works out every line of a store over the first n files: 44 before all else, also where the list has no room for every line; else every
// entry is the one worked out, and the list begins with the places of those lines whose stored entry was another: so many are answered.
pub fn rework(
    table: &[u8],
    files: &[u8],
    regular: &[u8],
    corrections: &[u8],
    entries: &mut [u8],
    n: usize,
    list: &mut [u16],
) -> Result<usize, Unreadable>
    ensures { Reworks (lent table.now files.now regular.now corrections.now entries.old) n list.old result entries.new list.new }
{
    if list.len() < lines::NUMBERS {
        return Err(Unreadable);
    }
    if !readable::readable(table, files, regular, corrections, entries) {
        return Err(Unreadable);
    }
    let filed = Filed {
        files,
        n: stand::files_among(files, n),
        journals: Journals {
            regular,
            corrections,
        },
    };
    let m = lines::line_count(table);
    Ok(rework_all(table, &filed, entries, m, list))
}
