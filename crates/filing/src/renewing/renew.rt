// The entries of the numbers that the last file names.
ghost use Rattle.std.specs.Prelude.{◌≡◌, true, map, ◌<◌};
ghost use Rattle.model.specs.Model.{count_of};
ghost use Rattle.store.specs.journals.Files.{file_count};
ghost use Rattle.store.specs.journals.Reads.{records_at, read_files};
ghost use Rattle.store.specs.numbers.Lines.{lines_of};
ghost use Rattle.store.specs.Reads.{lent, is_readable, table_line};
ghost use Rattle.rules.specs.Rules.{rules};
ghost use Rattle.filing.specs.renewing.Turns.{filed_from, Workable, Staged};
ghost use Rattle.filing.specs.fitting.Renewing.{last_filed, renewed_entries};

use crate::renewing::named::TaggedFile;
use crate::renewing::{named, turn};
use store::journals::files as file_list;
use working::filed::{FileRecords, Filed, Journals};
use working::indexing::find::Index;

// The turns for the records of a file, one after the other; answers how many records the numbers have that they name.
fn renew_records(
    lines: &[u8],
    index: &Index,
    room: &mut [u64; 10240],
    entries: &mut [u8],
    file: &TaggedFile,
) -> usize
    requires { let f = index.now.filed in Workable f.n lines.now f.files.now f.journals.regular.now f.journals.corrections.now entries.old }
    ensures { let f = index.now.filed in let r = file.now.records in Staged (read_files f.files.now f.journals.regular.now f.journals.corrections.now) (filed_from (records_at r.journals.regular.now r.journals.corrections.now) r.file r.start) r.file.count lines.now entries.old entries.new result }
{
    let mut sum = 0;
    for j in 0..file.records.file.count as usize {
        sum += turn::renew_record(lines, index, room, entries, file, j);
    }
    sum
}

// The turns for the records of a file, from an index of the first files for the numbers that they name.
fn renew_file(lines: &[u8], filed: &Filed, entries: &mut [u8], records: &FileRecords) -> usize
    requires { let f = filed.now in Workable f.n lines.now f.files.now f.journals.regular.now f.journals.corrections.now entries.old }
    ensures { let f = filed.now in let r = records.now in Staged (read_files f.files.now f.journals.regular.now f.journals.corrections.now) (filed_from (records_at r.journals.regular.now r.journals.corrections.now) r.file r.start) r.file.count lines.now entries.old entries.new result }
{
    let mut wanted = [0u64; 10240];
    let mut keys = [0u64; 10240];
    let mut places = [0u64; 10240];
    let mut room = [0u64; 10240];
    let file = named::tag_file(records, &mut wanted);
    let index = Index::new(*filed, file.tags, &mut keys, &mut places);
    renew_records(lines, &index, &mut room, entries, &file)
}

// Works out afresh, over all files, the entries of the numbers that the last file names, and answers how many records these
// numbers have in both journals.
pub fn renew(
    table: &[u8],
    files: &[u8],
    regular: &[u8],
    corrections: &[u8],
    entries: &mut [u8],
) -> usize
    requires entries_value { is_readable (lent table.now files.now regular.now corrections.now entries.old) ≡ true }
    requires files_nonzero { 0 < file_count files.now }
    ensures value { result ≡ count_of rules (read_files files.now regular.now corrections.now) (last_filed (read_files files.now regular.now corrections.now)) }
    ensures entries_after { entries.new ≡ renewed_entries (read_files files.now regular.now corrections.now) (last_filed (read_files files.now regular.now corrections.now)) (map table_line (lines_of table.now)) entries.old }
{
    let n = file_list::file_count(files);
    let filed = Filed {
        files,
        n,
        journals: Journals {
            regular,
            corrections,
        },
    };
    renew_file(table, &filed, entries, &filed.records(n - 1))
}
