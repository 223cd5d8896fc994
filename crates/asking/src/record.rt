// A filed record by journal and place: its file, its verdict at its own point of the history, and its bytes as a part of its journal.
ghost use Rattle.std.specs.Prelude.{Some, None};
ghost use Rattle.std.specs.Prelude.{◌≡◌, ◌+◌, ◌*◌, ◌≤◌, ◌<◌, length, take};
ghost use Rattle.store.specs.journals.Files.{file_at};
ghost use Rattle.store.specs.journals.Reads.{read_files};
ghost use Rattle.store.specs.numbers.Lines.{line_count, line_at};
ghost use Rattle.store.specs.Reads.{table_line};
ghost use Rattle.working.specs.Working.{record_in};
ghost use Rattle.asking.specs.Standing.{lines_in};
ghost use Rattle.asking.specs.Record.{kind_of, Locates, said_by, point_verdict, asked_as, part_shown};
ghost use Rattle.asking.specs.Looks.{record_looked};

use crate::answer::NoRecord;
use crate::looks::RecordNotSeen;
use crate::showable;
use calendar::dates::CalendarDays;
use entries::entry::Line;
use fields::code::Code;
use fields::number::Number;
use store::journals::records::{Journal, REPORTS};
use store::journals::{files, records, sums};
use store::numbers::{find, lines};
use verdict::step;
use verdict::step::Record;
use verdict::verdicts::Verdict;
use working::before;
use working::filed::{Filed, Journals};

// A filed record: its publisher, its publication day, its place in its file, its verdict.
#[derive(Clone, Copy)]
pub struct AskedRecord {
    pub publisher: Code,
    pub day: CalendarDays,
    pub place: usize,
    pub verdict: Verdict,
}

// A record that is shown: its journal, its place there, and what is shown of it.
#[derive(Clone, Copy)]
pub struct ShownRecord {
    pub journal: Journal,
    pub place: usize,
    pub shown: AskedRecord,
}

// What a record says: the number that it names, and what the verdicts take.
#[derive(Drop)]
pub struct Said {
    pub number: Number,
    pub rec: Record,
}

// The kind of the files whose records a journal holds, by the number that the list of files keeps in a byte (`store::journals::files::File`).
fn kind_of(which: Journal) -> u8
    ensures { result ≡ kind_of which }
{
    match which {
        Journal::Regular => 0,
        Journal::Correction => 1,
    }
}

// The file, among the first n, of the record at a place of the journal of a kind, and the record's place in that file.
fn locate(files: &[u8], n: usize, kind: u8, place: usize) -> Option<(usize, usize)>
    requires { (2 + n * 8 ≤ length files.now) × (n < 65536) }
    ensures { Locates (file_at files.now) n kind place result }
{
    let mut at = place;
    for k in 0..n {
        let f = files::file_at(files, k);
        let count = sums::records_in(f, kind);
        if at < count {
            return Some((k, at));
        }
        at -= count;
    }
    None
}

// What the record at a place of the file k says.
fn said_at(filed: &Filed, k: usize, at: usize) -> Said
    requires { (k < filed.now.n) × (at < (file_at filed.now.files.now k).count) }
    ensures { let j = filed.now.journals in result ≡ said_by (record_in filed.now.files.now j.regular.now j.corrections.now k at) }
{
    let records = filed.records(k);
    let file = records.file;
    let bytes = records.bytes(at);
    Said {
        number: rules::records::number_in(file.kind, bytes),
        rec: Record {
            publisher: Code(file.publisher),
            day: CalendarDays(file.day),
            at: at as u32,
            says: rules::records::says_in(file.kind, bytes),
        },
    }
}

// The verdict on what a record says, at the point of the history that the record at a place of the file k has: the line of its number is
// the line i.
fn verdict_at(table: &[u8], filed: &Filed, k: usize, at: usize, i: usize, rec: Record) -> Verdict
    requires k_lt_n { (k < filed.now.n) × (at < (file_at filed.now.files.now k).count) }
    requires i_in_bounds { 2 + i * 14 + 14 ≤ length table.now }
    ensures { let f = filed.now in result ≡ point_verdict (take f.n (read_files f.files.now f.journals.regular.now f.journals.corrections.now)) (record_in f.files.now f.journals.regular.now f.journals.corrections.now k at) rec (Some (table_line (line_at table.now i))) }
{
    let l = lines::line_at(table, i);
    let line = Line {
        owner: l.owner,
        setup: l.setup,
    };
    let e = before::entry_before(filed, l.number, line, k, at);
    step::verdict(Some(line), e, rec)
}

// The record at a place of the file k, with its verdict; 12 where its number has no line.
#[tactic(auto, using(crate::proofs::Lines::found_below, crate::proofs::Records::asked_unknown, crate::proofs::Records::asked_here))]
fn asked_at(table: &[u8], filed: &Filed, k: usize, at: usize) -> AskedRecord
    requires k_lt_n { (k < filed.now.n) × (at < (file_at filed.now.files.now k).count) }
    requires table_in_bounds { 2 + line_count table.now * 14 ≤ length table.now }
    ensures { let f = filed.now in result ≡ asked_as (lines_in table.now) (take f.n (read_files f.files.now f.journals.regular.now f.journals.corrections.now)) (record_in f.files.now f.journals.regular.now f.journals.corrections.now k at) }
{
    let s = said_at(filed, k, at);
    let verdict = match find::find_line(table, s.number) {
        Some(i) => verdict_at(table, filed, k, at, i, s.rec),
        None => Verdict::UnknownNumber,
    };
    AskedRecord {
        publisher: s.rec.publisher,
        day: s.rec.day,
        place: at,
        verdict,
    }
}

// The record at a place of a journal: a look.
#[tactic(auto, using(crate::proofs::Showing::showable, crate::proofs::Showing::sound, crate::proofs::Records::record_unshowable, crate::proofs::Records::asked_beyond))]
pub fn look(
    table: &[u8],
    files: &[u8],
    regular: &[u8],
    corrections: &[u8],
    which: Journal,
    place: usize,
) -> Result<ShownRecord, RecordNotSeen>
    ensures { result ≡ record_looked table.now files.now regular.now corrections.now which place }
{
    if !showable::showable(table, files, regular, corrections) {
        return Err(RecordNotSeen::Unshowable);
    }
    let n = files::file_count(files);
    let Some((k, at)) = locate(files, n, kind_of(which), place) else {
        return Err(RecordNotSeen::Beyond);
    };
    let filed = Filed {
        files,
        n,
        journals: Journals {
            regular,
            corrections,
        },
    };
    Ok(ShownRecord {
        journal: which,
        place,
        shown: asked_at(table, &filed, k, at),
    })
}

// The bytes of the record that an answer shows, a part of its journal; empty where it shows none.
pub fn part<'a>(
    regular: &'a [u8],
    corrections: &'a [u8],
    answer: Result<ShownRecord, NoRecord>,
) -> &'a [u8]
    ensures { result.now ≡ part_shown regular.now corrections.now answer }
{
    match answer {
        Ok(s) => records::record_bytes(regular, corrections, s.journal, REPORTS, s.place),
        Err(_) => records::record_bytes(regular, corrections, Journal::Regular, REPORTS, REPORTS),
    }
}
