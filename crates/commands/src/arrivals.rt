// The list of filed files, read from any bytes.
ghost use Rattle.std.specs.Prelude.{◌≡◌, ◌≤◌};
ghost use Rattle.commands.specs.Arrivals.{files_in, file_in};

use store::journals::files::{FILES, FILES_LENGTH, File};

// No Option: what stands at a place that has no file is said by `file_in`.
const NO_FILE: File = File {
    kind: 0,
    publisher: 0,
    day: 0,
    count: 0,
};

// How many files there are, and at most as many as the list takes.
pub fn count(files: &[u8]) -> usize
    ensures upper_bound { result ≤ 1024 }
    ensures value { result ≡ files_in files.now }
{
    if files.len() < 2 {
        return 0;
    }
    store::journals::files::file_count(files).min(FILES)
}

// The file at a place of the list; one of no records where there is none.
pub fn file_at(files: &[u8], i: usize) -> File
    ensures { result ≡ file_in files.now i }
{
    if FILES <= i || files.len() < FILES_LENGTH {
        return NO_FILE;
    }
    store::journals::files::file_at(files, i)
}
