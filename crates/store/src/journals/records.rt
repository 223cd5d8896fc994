// The two journals: a slot for each record, with the record's length and its bytes.
ghost use Rattle.std.specs.Prelude.{◌≡◌, ◌+◌, ◌*◌, ◌≤◌, ◌<◌, length};
ghost use Rattle.laws.specs.Overlay.{overlay};
ghost use Rattle.laws.specs.Slots.{slot_of};
ghost use Rattle.store.specs.journals.Records.{record_in, shown_in};

use crate::slots::record;

// How many records the regular and the correction journal take.
pub const REPORTS: usize = 8192;

pub const CORRECTIONS: usize = 2048;

// How long the longest report and the longest correction are.
pub const LONGEST_REPORT: usize = 44;

pub const LONGEST_CORRECTION: usize = 97;

// How wide a record's slot is: a byte for the length, and the longest record.
pub const REPORT_SLOT: usize = 1 + LONGEST_REPORT;

pub const CORRECTION_SLOT: usize = 1 + LONGEST_CORRECTION;

// How long the buffers have to be.
pub const REGULAR_LENGTH: usize = REPORTS * REPORT_SLOT;

pub const CORRECTIONS_LENGTH: usize = CORRECTIONS * CORRECTION_SLOT;

// Which of the two journals.
#[derive(Clone, Copy)]
pub enum Journal {
    Regular,
    Correction,
}

// Writes a report into the slot k of the regular journal. docs/promises/store.md names this and the next, each `record::put` at its width.
pub fn put_report(regular: &mut [u8], k: usize, bytes: &[u8])
    requires { (k * 45 + 45 ≤ length regular.old) × (length bytes.now < 45) }
    ensures { regular.new ≡ overlay regular.old (k * 45) (slot_of 45 bytes.now) }
{
    record::put(regular, REPORT_SLOT, k, bytes);
}

// Writes a correction into the slot k of the correction journal.
pub fn put_correction(corrections: &mut [u8], k: usize, bytes: &[u8])
    requires { (k * 98 + 98 ≤ length corrections.old) × (length bytes.now < 98) }
    ensures { corrections.new ≡ overlay corrections.old (k * 98) (slot_of 98 bytes.now) }
{
    record::put(corrections, CORRECTION_SLOT, k, bytes);
}

// The record at the place k of a journal that holds `count` records; the empty part where there is none.
#[tactic(auto, using(crate::proofs::journals::Places::beyond_records, crate::proofs::journals::Places::beyond_buffer, crate::proofs::journals::Places::within, crate::proofs::journals::Places::place_fits))]
fn shown(journal: &[u8], width: usize, count: usize, k: usize) -> &[u8]
    requires { 0 < width }
    ensures { result.now ≡ record_in width count journal.now k }
{
    if k < count && k < journal.len() / width {
        return record::bytes(journal, width, k);
    }
    &[]
}

// The bytes of the record at a place of one of the two journals, a part of that journal; `count` is how many records it holds.
// Where there is no such record, the part is empty.
pub fn record_bytes<'a>(
    regular: &'a [u8],
    corrections: &'a [u8],
    which: Journal,
    count: usize,
    place: usize,
) -> &'a [u8]
    ensures { result.now ≡ shown_in which regular.now corrections.now count place }
{
    match which {
        Journal::Regular => shown(regular, REPORT_SLOT, count, place),
        Journal::Correction => shown(corrections, CORRECTION_SLOT, count, place),
    }
}
