// Reading files of each kind.
ghost use Rattle.std.specs.Prelude.{◌≡◌};
ghost use Rattle.laws.specs.Split.{end_of};
ghost use Rattle.files.specs.Judged.{judged_file, judged_told};
ghost use Rattle.files.specs.Reading.{found_at, found_told};
ghost use Rattle.capi.specs.Kinds.{kind_by};
ghost use Rattle.capi.specs.Told.{Tells};

// A file of a kind: 0, and how many records it has; or 4, and the place of its first faulty record, the field in it (0: none) and the number of
// the cause.
#[unsafe(no_mangle)]
pub extern "C" fn dagskimra_judge(
    kind: u8,
    file: &[u8],
    more: &mut u64,
    field: &mut u64,
    cause: &mut u64,
) -> u8
    ensures { Tells (judged_told (judged_file (kind_by kind) file.now)) result more.new field.new cause.new }
{
    capi::reading::dagskimra_judge(kind, file, more, field, cause)
}

// What stands at a place of a file: 0 a record; 4 the file has a fault, told as judging does; 7 the place is beyond its records.
#[unsafe(no_mangle)]
pub extern "C" fn dagskimra_find(
    kind: u8,
    file: &[u8],
    place: usize,
    more: &mut u64,
    field: &mut u64,
    cause: &mut u64,
) -> u8
    ensures { Tells (found_told (found_at (kind_by kind) file.now place)) result more.new field.new cause.new }
{
    capi::reading::dagskimra_find(kind, file, place, more, field, cause)
}

// Where the line that starts at `at` ends: at its CR, or at the file's end. The next one starts behind the CR.
#[unsafe(no_mangle)]
pub extern "C" fn dagskimra_line_end(file: &[u8], at: usize) -> usize
    ensures { result ≡ end_of 13 file.now at }
{
    capi::reading::dagskimra_line_end(file, at)
}
