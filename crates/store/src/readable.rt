// Whether the five lent buffers read as a store.
ghost use Rattle.std.specs.Prelude.{◌≡◌, true, ◌≤◌, length};
ghost use Rattle.store.specs.Reads.{lent, long_enough, good_table, good_files, good_records, is_readable};

use crate::entry_slots::entry;
use crate::journals::records::{CORRECTIONS, CORRECTIONS_LENGTH, REGULAR_LENGTH, REPORTS};
use crate::journals::{files, sums, twice};
use crate::numbers::lines;
use crate::{numbers, records};

// How long the entries' buffer has to be.
pub const ENTRIES_LENGTH: usize = lines::NUMBERS * entry::WIDTH;

// Whether the buffers have room for what the limits allow.
#[tactic(auto, unfolding(crate::specs::Reads::long_enough))]
pub fn long_enough(
    table: &[u8],
    files: &[u8],
    regular: &[u8],
    corrections: &[u8],
    entries: &[u8],
) -> bool
    ensures { result ≡ long_enough (lent table.now files.now regular.now corrections.now entries.now) }
{
    lines::TABLE_LENGTH <= table.len()
        && files::FILES_LENGTH <= files.len()
        && REGULAR_LENGTH <= regular.len()
        && CORRECTIONS_LENGTH <= corrections.len()
        && ENTRIES_LENGTH <= entries.len()
}

// Whether the number table is well formed.
#[tactic(auto, using(crate::proofs::Checks::table_tested))]
fn good_table(table: &[u8]) -> bool
    requires { 14338 ≤ length table.now }
    ensures { result ≡ good_table table.now }
{
    let n = lines::line_count(table);
    n <= lines::NUMBERS && lines::good_lines(table, n) && numbers::twice::no_number_twice(table, n)
}

// Whether the list of files is well formed.
#[tactic(auto, unfolding(crate::specs::Reads::good_files, crate::specs::journals::Files::files_of))]
fn good_files(files: &[u8]) -> bool
    requires { 8194 ≤ length files.now }
    ensures { result ≡ good_files files.now }
{
    let n = files::file_count(files);
    n <= files::FILES
        && files::good_files(files, n)
        && twice::no_file_twice(files, n)
        && sums::records_of(files, n, 0) <= REPORTS
        && sums::records_of(files, n, 1) <= CORRECTIONS
}

// Whether the records of the files are in their layouts.
#[tactic(auto, using(crate::proofs::Checks::records_tested))]
fn good_records(files: &[u8], regular: &[u8], corrections: &[u8]) -> bool
    requires { (8194 ≤ length files.now) × (368640 ≤ length regular.now) × (200704 ≤ length corrections.now) × (good_files files.now ≡ true) }
    ensures { result ≡ good_records files.now regular.now corrections.now }
{
    let n = files::file_count(files);
    records::good_reports(regular, sums::records_of(files, n, 0))
        && records::good_corrections(corrections, sums::records_of(files, n, 1))
}

// Whether the buffers read as a store.
#[tactic(auto, using(crate::proofs::Checks::entries_tested))]
pub fn readable(
    table: &[u8],
    files: &[u8],
    regular: &[u8],
    corrections: &[u8],
    entries: &[u8],
) -> bool
    ensures { result ≡ is_readable (lent table.now files.now regular.now corrections.now entries.now) }
{
    if !long_enough(table, files, regular, corrections, entries) {
        return false;
    }
    good_table(table)
        && good_files(files)
        && good_records(files, regular, corrections)
        && entry::good_entries(entries, lines::line_count(table))
}
