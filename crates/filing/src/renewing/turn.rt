// One record of a file: its number worked out afresh, where no earlier record of the file names it.
ghost use Rattle.std.specs.Prelude.{◌≡◌, ◌<◌, length, take};
ghost use Rattle.model.specs.Model.{history};
ghost use Rattle.store.specs.journals.Reads.{records_at, read_files};
ghost use Rattle.store.specs.numbers.Lines.{line_count};
ghost use Rattle.rules.specs.Rules.{rules};
ghost use Rattle.filing.specs.renewing.Turns.{filed_from, Workable, LineRenewed, NumberRenewed, RecordRenewed};

use crate::renewing::named;
use crate::renewing::named::TaggedFile;
use entries::entry::Line;
use fields::number::Number;
use store::entry_slots::entry;
use store::numbers::lines;
use working::indexing::find;
use working::indexing::find::Index;

// How many records of the first files name the number: without a line there is nothing to fold, so they are counted as they are gathered.
fn count_all(index: &Index, number: Number, room: &mut [u64; 10240]) -> usize
    ensures { let f = index.now.filed in result ≡ length (history rules (take f.n (read_files f.files.now f.journals.regular.now f.journals.corrections.now)) number) }
{
    find::gather_indexed(index, number, room)
}

// Works out the entry of the line k over all files, writes it, and answers how many records name its number.
fn renew_line(
    lines: &[u8],
    index: &Index,
    room: &mut [u64; 10240],
    entries: &mut [u8],
    k: usize,
) -> usize
    requires workable { let f = index.now.filed in Workable f.n lines.now f.files.now f.journals.regular.now f.journals.corrections.now entries.old }
    requires k_bound { k < line_count lines.now }
    ensures { let f = index.now.filed in LineRenewed (read_files f.files.now f.journals.regular.now f.journals.corrections.now) lines.now entries.old entries.new k result }
{
    let l = lines::line_at(lines, k);
    let line = Line {
        owner: l.owner,
        setup: l.setup,
    };
    let worked = find::work_indexed(index, l.number, line, room);
    entry::put_entry(entries, k, worked.standing.entry);
    worked.count
}

// Works out the number over all files: writes the entry of its line, where it has one, and answers how many records name it.
fn renew_number(
    lines: &[u8],
    index: &Index,
    room: &mut [u64; 10240],
    entries: &mut [u8],
    number: Number,
) -> usize
    requires { let f = index.now.filed in Workable f.n lines.now f.files.now f.journals.regular.now f.journals.corrections.now entries.old }
    ensures { let f = index.now.filed in NumberRenewed (read_files f.files.now f.journals.regular.now f.journals.corrections.now) number lines.now entries.old entries.new result }
{
    let count = lines::line_count(lines);
    let k = store::numbers::find::line_of(lines, count, number);
    if k < count {
        return renew_line(lines, index, room, entries, k);
    }
    count_all(index, number, room)
}

// The turn for the record at j: nothing where an earlier record of the file names its number.
pub(crate) fn renew_record(
    lines: &[u8],
    index: &Index,
    room: &mut [u64; 10240],
    entries: &mut [u8],
    file: &TaggedFile,
    j: usize,
) -> usize
    requires workable { let f = index.now.filed in Workable f.n lines.now f.files.now f.journals.regular.now f.journals.corrections.now entries.old }
    requires j_lt_count { j < file.now.records.file.count }
    ensures { let f = index.now.filed in let r = file.now.records in RecordRenewed (read_files f.files.now f.journals.regular.now f.journals.corrections.now) (filed_from (records_at r.journals.regular.now r.journals.corrections.now) r.file r.start) j lines.now entries.old entries.new result }
{
    let number = named::number_at(&file.records, j);
    if named::named_before(file, j, number) {
        return 0;
    }
    renew_number(lines, index, room, entries, number)
}
