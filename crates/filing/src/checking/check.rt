// The checks of filing behind 44, in the paper's order.
ghost use Rattle.std.specs.Prelude.{◌≡◌, true, ◌+◌, ◌*◌, ◌≤◌, length};
ghost use Rattle.std.specs.List.{list_any, range_with_len};
ghost use Rattle.fields.specs.Code.{code_of};
ghost use Rattle.files.specs.Judged.{judged_file};
ghost use Rattle.store.specs.journals.Files.{file_at, file_count, same_file};
ghost use Rattle.filing.specs.entering.Entering.{file_kind};
ghost use Rattle.store.specs.Reads.{good_files};
ghost use Rattle.filing.specs.checking.Checks.{has_room, room_checked, text_checked, day_checked, checked};

use crate::checking::answer::NotFiled;
use crate::entering::kind::Filable;
use calendar::dates;
use calendar::dates::CalendarDays;
use fields::code::Code;
use files::judge;
use store::journals::files::File;
use store::journals::{files as list, sums};

// Whether two files are of one kind, publisher and day; the day first, which tells most apart. A derived `==` would compare their counts too.
#[tactic(auto, unfolding(store::specs::journals::Files::same_file))]
fn same_file(f: File, g: File) -> bool
    ensures { result ≡ same_file f g }
{
    f.day == g.day && f.publisher == g.publisher && f.kind == g.kind
}

// Whether a file alike is filed.
fn filed_already(files: &[u8], sought: File) -> bool
    requires { 2 + file_count files.now * 8 ≤ length files.now }
    ensures { result ≡ list_any (λ k. same_file sought (file_at files.now k)) (range_with_len 0 (file_count files.now)) }
{
    (0..list::file_count(files)).any(|k| same_file(sought, list::file_at(files, k)))
}

// Whether there is room for one more file with m records.
fn has_room(files: &[u8], kind: Filable, m: usize) -> bool
    requires { (8194 ≤ length files.now) × (good_files files.now ≡ true) }
    ensures { result ≡ has_room files.now kind m }
{
    let n = list::file_count(files);
    n < list::FILES && m <= kind.most() - sums::records_of(files, n, kind.number())
}

// The last check: the room for the records of a file that keeps to its layouts.
fn check_room(files: &[u8], kind: Filable, code: Code, m: usize) -> Result<(Code, usize), NotFiled>
    requires { (8194 ≤ length files.now) × (good_files files.now ≡ true) }
    ensures { result ≡ room_checked (has_room files.now kind m) code m }
{
    if has_room(files, kind, m) {
        return Ok((code, m));
    }
    Err(NotFiled::Full)
}

// The checks of the text: its layouts, then the room for its records.
fn check_text(
    files: &[u8],
    kind: Filable,
    code: Code,
    text: &[u8],
) -> Result<(Code, usize), NotFiled>
    requires { (8194 ≤ length files.now) × (good_files files.now ≡ true) }
    ensures { result ≡ text_checked (has_room files.now kind) code (judged_file (file_kind kind) text.now) }
{
    match judge::judge(kind.file_kind(), text) {
        Err(fault) => Err(NotFiled::Fault(fault.at, fault.cause)),
        Ok(m) => check_room(files, kind, code, m),
    }
}

// The checks of a file with a publisher that is a network code.
fn check_day(
    files: &[u8],
    kind: Filable,
    code: Code,
    day: CalendarDays,
    text: &[u8],
) -> Result<(Code, usize), NotFiled>
    requires { (8194 ≤ length files.now) × (good_files files.now ≡ true) }
    ensures { result ≡ day_checked files.now kind code day.0 (judged_file (file_kind kind) text.now) }
{
    if !dates::in_calendar(day) {
        return Err(NotFiled::NoDay);
    }
    let sought = File {
        kind: kind.number(),
        publisher: code.0,
        day: day.0,
        count: 0,
    };
    if filed_already(files, sought) {
        return Err(NotFiled::FiledAlready);
    }
    check_text(files, kind, code, text)
}

// All of them: the publisher's code and the count of the file's records, or the first refusal.
pub fn check(
    files: &[u8],
    kind: Filable,
    publisher: &[u8],
    day: CalendarDays,
    text: &[u8],
) -> Result<(Code, usize), NotFiled>
    requires { (8194 ≤ length files.now) × (good_files files.now ≡ true) }
    ensures { result ≡ checked files.now kind (code_of publisher.now) day.0 (judged_file (file_kind kind) text.now) }
{
    let code = Code::read(publisher).ok_or(NotFiled::NoCode)?;
    check_day(files, kind, code, day, text)
}
