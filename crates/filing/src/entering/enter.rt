// Entering a file: its records behind the stored ones of their journal, and a slot in the list of files.
ghost use Rattle.std.specs.Prelude.{◌≡◌, ◌+◌, ◌*◌, ◌≤◌, ◌<◌, length};
ghost use Rattle.files.specs.Judged.{judged_file, records_of};
ghost use Rattle.std.specs.Prelude.{Ok};
ghost use Rattle.store.specs.journals.Files.{file_count};
ghost use Rattle.filing.specs.entering.Entering.{file_kind, most, filed_as, files_with, journal_with, regular_with, corrections_with, first_lines, Lines, Ready, Joined};

use crate::entering::kind::Filable;
use calendar::dates::CalendarDays;
use fields::code::Code;
use files::read;
use store::journals::files::File;
use store::journals::records::{CORRECTION_SLOT, REPORT_SLOT};
use store::journals::sums;
use store::slots::record;

// Writes the first m lines of a text into a journal, from the slot `from` on.
fn put_lines(journal: &mut [u8], width: usize, from: usize, text: &[u8], m: usize)
    requires { Lines width text.now m × (((from + m) * width ≤ length journal.old) × (width ≤ 256)) }
    ensures { journal.new ≡ journal_with width journal.old from (first_lines m text.now) }
{
    let mut at: usize = 0;
    for i in 0..m {
        let end = read::line_end(text, at);
        record::put(journal, width, from + i, &text[at..end]);
        at = end + 1;
    }
}

// Writes the m records of a file into the journal of its kind, from the slot `from` on.
fn put_records(
    regular: &mut [u8],
    corrections: &mut [u8],
    kind: Filable,
    from: usize,
    text: &[u8],
    m: usize,
)
    requires { (judged_file (file_kind kind) text.now ≡ Ok m) × ((from + m ≤ most kind) × ((368640 ≤ length regular.old) × (200704 ≤ length corrections.old))) }
    ensures { (regular.new ≡ regular_with kind regular.old from (records_of (file_kind kind) text.now)) × (corrections.new ≡ corrections_with kind corrections.old from (records_of (file_kind kind) text.now)) }
{
    match kind {
        Filable::Default => put_lines(regular, REPORT_SLOT, from, text, m),
        Filable::Correction => put_lines(corrections, CORRECTION_SLOT, from, text, m),
    }
}

// Writes one file more into the list of n files.
fn add_file(files: &mut [u8], n: usize, f: File)
    requires { (n ≡ file_count files.old) × ((n < 1024) × (8194 ≤ length files.old)) }
    ensures { files.new ≡ files_with files.old f }
{
    store::journals::files::put_count(files, (n + 1) as u16);
    store::journals::files::put_file(files, n, f);
}

// Enters a file of m records: the buffers are then as `entered` says, whatever table and entries stand beside them.
pub fn enter(
    files: &mut [u8],
    regular: &mut [u8],
    corrections: &mut [u8],
    kind: Filable,
    publisher: Code,
    day: CalendarDays,
    text: &[u8],
    m: usize,
)
    requires { Ready files.old regular.old corrections.old kind text.now m }
    ensures { Joined (filed_as kind publisher.0 day.0 text.now) files.old regular.old corrections.old files.new regular.new corrections.new }
{
    let n = store::journals::files::file_count(files);
    let from = sums::records_of(files, n, kind.number());
    put_records(regular, corrections, kind, from, text, m);
    let file = File {
        kind: kind.number(),
        publisher: publisher.0,
        day: day.0,
        count: m as u32,
    };
    add_file(files, n, file);
}
