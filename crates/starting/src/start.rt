// Starting: the number table into an empty store, or a refusal that writes nothing.
ghost use Rattle.std.specs.Prelude.{◌≡◌, ◌+◌, ◌*◌, ◌≤◌, length};
ghost use Rattle.laws.specs.Overlay.{overlay};
ghost use Rattle.laws.specs.Words.{low_first};
ghost use Rattle.store.specs.Reads.{lent};
ghost use Rattle.starting.specs.Start.{first_of, table_with, entries_with, Entered, Begun, Starts};

use crate::tables::scratch;
use entries::entry::{Entry, Line};
use store::entry_slots::entry;
use store::journals::files;
use store::numbers::lines;
use store::numbers::lines::TABLE_LENGTH;
use store::readable;
use store::slots::run;

// Why a store is not started: a short buffer, or a text that is no number table.
#[derive(Clone, Copy, PartialEq, Eq)]
pub enum NotStarted {
    Short,
    BadTable,
}

// The first entry of a line.
fn first_of(l: lines::Line) -> Entry
    ensures { result ≡ first_of l }
{
    entries::entry::first(Line {
        owner: l.owner,
        setup: l.setup,
    })
}

// Writes the count and the n lines of `room` into the table.
#[tactic(auto, using(crate::proofs::Beginning::table_written))]
fn put_table(room: &[u8], n: usize, table: &mut [u8])
    requires { (n ≤ 1024) × (14338 ≤ length room.now) × (14338 ≤ length table.old) }
    ensures { table.new ≡ table_with room.now n table.old }
{
    let end = lines::HEAD + n * lines::LINE;
    lines::put_count(table, n as u16);
    run::write(table, lines::HEAD, &room[lines::HEAD..end]);
}

// Writes the first entries of the n lines of `room`.
#[tactic(auto, using(crate::proofs::Beginning::entries_none, crate::proofs::Beginning::entries_next))]
fn put_entries(room: &[u8], n: usize, entries: &mut [u8])
    requires { (2 + n * 14 ≤ length room.now) × (n * 100 ≤ length entries.old) }
    ensures { entries.new ≡ entries_with room.now n entries.old }
{
    for i in 0..n {
        entry::put_entry(entries, i, first_of(lines::line_at(room, i)));
    }
}

// Writes the table, no file, and the first entries.
fn enter(room: &[u8], n: usize, table: &mut [u8], files: &mut [u8], entries: &mut [u8])
    requires { (n ≤ 1024) × (14338 ≤ length room.now) × (14338 ≤ length table.old) × (8194 ≤ length files.old) × (102400 ≤ length entries.old) }
    ensures { Entered room.now n table.old files.old entries.old table.new files.new entries.new }
{
    put_table(room, n, table);
    files::put_count(files, 0);
    put_entries(room, n, entries);
}

// Judges the text in room of its own, and writes only where it is a table.
fn begin(
    text: &[u8],
    room: &mut [u8],
    table: &mut [u8],
    files: &mut [u8],
    entries: &mut [u8],
) -> Result<usize, NotStarted>
    requires { (14338 ≤ length room.old) × (14338 ≤ length table.old) × (8194 ≤ length files.old) × (102400 ≤ length entries.old) }
    ensures { Begun text.now table.old files.old entries.old result table.new files.new entries.new }
{
    let n = scratch::judge(text, room).ok_or(NotStarted::BadTable)?;
    enter(room, n, table, files, entries);
    Ok(n)
}

// Starts a store: `Short` (44) before all else; `BadTable` (6), and nothing is written; else the count of the table's lines (0), and
// the buffers then read as the table, no file, and the first entry of each line.
pub fn start(
    text: &[u8],
    table: &mut [u8],
    files: &mut [u8],
    regular: &mut [u8],
    corrections: &mut [u8],
    entries: &mut [u8],
) -> Result<usize, NotStarted>
    ensures { Starts text.now (lent table.old files.old regular.old corrections.old entries.old) result (lent table.new files.new regular.new corrections.new entries.new) }
{
    if !readable::long_enough(table, files, regular, corrections, entries) {
        return Err(NotStarted::Short);
    }
    let mut room = [0u8; TABLE_LENGTH];
    begin(text, &mut room, table, files, entries)
}
