// The first files of a store with the two journals that hold their records, and the records of one of these files.
ghost use Rattle.std.specs.Prelude.{◌≡◌, ◌+◌, ◌*◌, ◌%◌, ◌<◌};
ghost use Rattle.laws.specs.Lists.{table};
ghost use Rattle.store.specs.journals.Files.{file_at, records_of};
ghost use Rattle.store.specs.journals.Reads.{records_at};
ghost use Rattle.store.specs.journals.Records.{shown_in};
ghost use Rattle.working.specs.Slips.{slip_at, key_by, key_of, class_behind, kind_behind, journal_behind};
ghost use Rattle.working.specs.Working.{Sound, Stored, InFile};

use store::journals::files::File;
use store::journals::records::{CORRECTION_SLOT, Journal, REPORT_SLOT};
use store::journals::{files, records, sums};
use store::slots::record;

// The two journals of a store.
#[derive(Clone, Copy)]
pub struct Journals<'a> {
    pub regular: &'a [u8],
    pub corrections: &'a [u8],
}

// The first n files of a store: each is in range, and the journals hold their records.
#[derive(Clone, Copy)]
pub struct Filed<'a> {
    pub files: &'a [u8],
    pub n: usize,
    pub journals: Journals<'a>,
    pub ghost sound: { Sound n files.now journals.regular.now journals.corrections.now },
}

// The records of a file, which begin at `start` in the journal of its kind.
#[derive(Clone, Copy)]
pub struct FileRecords<'a> {
    pub journals: Journals<'a>,
    pub file: File,
    pub start: usize,
    pub ghost in_file: { InFile journals.regular.now journals.corrections.now file start file.count },
}

impl<'a> Journals<'a> {
    // The bytes of the record at a place of the journal of a kind.
    pub fn record_at(&self, kind: u8, place: usize) -> &'a [u8]
        requires { Stored self.now.regular.now self.now.corrections.now kind place }
        ensures { result.now ≡ records_at self.now.regular.now self.now.corrections.now kind place }
    {
        if kind == 0 {
            return record::bytes(self.regular, REPORT_SLOT, place);
        }
        record::bytes(self.corrections, CORRECTION_SLOT, place)
    }

    // The bytes of the record behind a key; empty where there is none.
    pub(crate) fn bytes_behind(&self, key: u64) -> &'a [u8]
        ensures { result.now ≡ shown_in (journal_behind key) self.now.regular.now self.now.corrections.now 8192 (key % 8192) }
    {
        let journal = if class_behind(key) == 2 {
            Journal::Correction
        } else {
            Journal::Regular
        };
        let place = (key % 8192) as usize;
        records::record_bytes(self.regular, self.corrections, journal, 8192, place)
    }
}

impl<'a> Filed<'a> {
    // The records of the file k, which begin at `start`.
    pub(crate) fn records_from(&self, k: usize, start: usize) -> FileRecords<'a>
        requires k_lt_n { k < self.now.n }
        requires start_value { start ≡ records_of (file_at self.now.files.now k).kind (table k (file_at self.now.files.now)) }
        ensures journals { result.journals ≡ self.now.journals }
        ensures file { result.file ≡ file_at self.now.files.now k }
        ensures start { result.start ≡ start }
    {
        FileRecords {
            journals: self.journals,
            file: files::file_at(self.files, k),
            start,
        }
    }

    // The records of the file k.
    pub fn records(&self, k: usize) -> FileRecords<'a>
        requires { k < self.now.n }
        ensures journals { result.journals ≡ self.now.journals }
        ensures file { result.file ≡ file_at self.now.files.now k }
        ensures start { result.start ≡ records_of (file_at self.now.files.now k).kind (table k (file_at self.now.files.now)) }
    {
        let kind = files::file_at(self.files, k).kind;
        self.records_from(k, sums::records_of(self.files, k, kind))
    }
}

// A key: day, class, publisher, place in the file, place in the journal. One word that is sorted, so it stays packed.
#[tactic(auto, unfolding(crate::specs::Slips::key_by))]
fn key(day: u16, class: u64, publisher: u16, place: usize, index: usize) -> u64
    requires { (class < 16) × (publisher < 1024) × (place < 8192) × (index < 8192) }
    ensures { result ≡ key_by day class publisher place index }
{
    let front = (u64::from(day) * 16 + class) * 1024 + u64::from(publisher);
    (front * 8192 + place as u64) * 8192 + index as u64
}

// The class of the record behind a key.
#[tactic(auto, unfolding(crate::specs::Slips::class_behind))]
fn class_behind(key: u64) -> u64
    ensures { result ≡ class_behind key }
{
    key / 8192 / 8192 / 1024 % 16
}

// The kind of its file: corrections are of class 2.
pub(crate) fn kind_behind(key: u64) -> u8
    ensures { result ≡ kind_behind key }
{
    if class_behind(key) == 2 { 1 } else { 0 }
}

impl<'a> FileRecords<'a> {
    // The bytes of the record at a place of the file.
    pub fn bytes(&self, place: usize) -> &'a [u8]
        requires { place < self.now.file.count }
        ensures { let r = records_at self.now.journals.regular.now self.now.journals.corrections.now in result.now ≡ r self.now.file.kind (self.now.start + place) }
    {
        self.journals.record_at(self.file.kind, self.start + place)
    }

    // The key of the record at a place of the file.
    pub(crate) fn key(&self, place: usize) -> u64
        requires { place < self.now.file.count }
        ensures { let r = records_at self.now.journals.regular.now self.now.journals.corrections.now in result ≡ key_of (slip_at r self.now.file self.now.start place) }
    {
        let file = self.file;
        let class = rules::records::class_in(file.kind, self.bytes(place));
        key(file.day, class, file.publisher, place, self.start + place)
    }
}
