// The parts of filing by themselves, so that bench/ can time each. They are no interface: each asks for what the parts before it have found, and
// whoever files a file calls `dagskimra_file` of crate `capi`.
#![tactic(auto)]

ghost use Rattle.std.specs.Prelude.{◌≡◌, true, map, ◌≤◌, ◌<◌, length};
ghost use Rattle.fields.specs.Code.{code_of};
ghost use Rattle.files.specs.Judged.{judged_file};
ghost use Rattle.model.specs.Model.{count_of};
ghost use Rattle.store.specs.journals.Files.{file_count};
ghost use Rattle.store.specs.journals.Reads.{read_files};
ghost use Rattle.store.specs.numbers.Lines.{lines_of};
ghost use Rattle.store.specs.Reads.{lent, is_readable, good_files, table_line};
ghost use Rattle.rules.specs.Rules.{rules};
ghost use Rattle.filing.specs.entering.Entering.{file_kind, filed_as, Ready, Joined};
ghost use Rattle.filing.specs.fitting.Renewing.{last_filed, renewed_entries};
ghost use Rattle.filing.specs.checking.Checks.{checked};
ghost use Rattle.phases.specs.Phases.{filable_by, passed};

use calendar::dates::CalendarDays;
use fields::code::Code;
use filing::checking::answer::NotFiled;
use filing::checking::check;
use filing::entering::enter;
use filing::entering::kind::Filable;
use filing::renewing::renew;

// The kind that is filed: 0 default, any other number correction.
#[tactic(auto, unfolding(crate::specs::Phases::filable_by))]
fn filable_by(kind: u8) -> Filable
    ensures { result ≡ filable_by kind }
{
    match kind {
        0 => Filable::Default,
        _ => Filable::Correction,
    }
}

// How many records a file has that passed the checks; 0 where it did not.
fn passed(c: Result<(Code, usize), NotFiled>) -> u64
    ensures { result ≡ passed c }
{
    match c {
        Ok((_, m)) => m as u64,
        Err(_) => 0,
    }
}

// Reading: the checks 1 to 5.
#[unsafe(no_mangle)]
pub extern "C" fn dagskimra_phase_check(
    files: &[u8],
    kind: u8,
    publisher: &[u8],
    day: u16,
    text: &[u8],
) -> u64
    requires { (8194 ≤ length files.now) × (good_files files.now ≡ true) }
    ensures { result ≡ passed (checked files.now (filable_by kind) (code_of publisher.now) day (judged_file (file_kind (filable_by kind)) text.now)) }
{
    passed(check::check(files, filable_by(kind), publisher, CalendarDays(day), text))
}

// Appending.
#[unsafe(no_mangle)]
pub extern "C" fn dagskimra_phase_enter(
    files: &mut [u8],
    regular: &mut [u8],
    corrections: &mut [u8],
    kind: u8,
    publisher: u16,
    day: u16,
    text: &[u8],
    m: usize,
)
    requires { Ready files.old regular.old corrections.old (filable_by kind) text.now m }
    ensures { Joined (filed_as (filable_by kind) publisher day text.now) files.old regular.old corrections.old files.new regular.new corrections.new }
{
    enter::enter(
        files,
        regular,
        corrections,
        filable_by(kind),
        Code(publisher),
        CalendarDays(day),
        text,
        m,
    );
}

// Working out.
#[unsafe(no_mangle)]
pub extern "C" fn dagskimra_phase_renew<'a>(
    table: &'a [u8],
    files: &'a [u8],
    regular: &'a [u8],
    corrections: &'a [u8],
    entries: &mut [u8],
) -> usize
    requires entries_value { is_readable (lent table.now files.now regular.now corrections.now entries.old) ≡ true }
    requires files_nonzero { 0 < file_count files.now }
    ensures value { result ≡ count_of rules (read_files files.now regular.now corrections.now) (last_filed (read_files files.now regular.now corrections.now)) }
    ensures entries_after { entries.new ≡ renewed_entries (read_files files.now regular.now corrections.now) (last_filed (read_files files.now regular.now corrections.now)) (map table_line (lines_of table.now)) entries.old }
{
    renew::renew(table, files, regular, corrections, entries)
}
