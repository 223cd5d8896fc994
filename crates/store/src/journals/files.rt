// The list of the filed files: a count in two bytes, and a slot of 8 bytes for each file, in order of arrival.
ghost use Rattle.std.specs.Prelude.{◌≡◌, ◌+◌, ◌*◌, ◌≤◌, ◌<◌, length};
ghost use Rattle.laws.specs.Overlay.{overlay};
ghost use Rattle.laws.specs.Words.{low_first};
ghost use Rattle.store.specs.journals.Files.{file_count, file_at, file_slot, good_file};
ghost use Rattle.laws.specs.Lists.{table, all};

use crate::slots::{run, word};
use calendar::dates::LAST_DAY;
use fields::code::Code;

// How many files the store takes.
pub const FILES: usize = 1024;

// How wide the count and a file's slot are, and how long the buffer has to be.
pub const HEAD: usize = 2;

pub const SLOT: usize = 8;

pub const FILES_LENGTH: usize = HEAD + FILES * SLOT;

// A filed file. Kind 0 is default and 1 correction; the day is the day of its publication.
#[derive(Clone, Copy)]
pub struct File {
    pub kind: u8,
    pub publisher: u16,
    pub day: u16,
    pub count: u32,
}

// How many files are filed.
#[tactic(auto, unfolding(crate::specs::journals::Files::file_count))]
pub fn file_count(files: &[u8]) -> usize
    requires { 2 ≤ length files.now }
    ensures { (result ≡ file_count files.now) × (result < 65536) }
{
    usize::from(word::get2(files, 0))
}

// The file in the slot k.
#[tactic(auto, using(crate::proofs::journals::Reading::file_read))]
pub fn file_at(files: &[u8], k: usize) -> File
    requires { 2 + k * 8 + 8 ≤ length files.now }
    ensures { (result ≡ file_at files.now k) × (result.count < 16777216) }
{
    let at = HEAD + k * SLOT;
    File {
        kind: files[at],
        publisher: word::get2(files, at + 1),
        day: word::get2(files, at + 3),
        count: word::get3(files, at + 5),
    }
}

// Writes a file into the slot k.
#[tactic(auto, unfolding(crate::specs::journals::Files::file_slot, laws::specs::Words::low_first))]
pub fn put_file(files: &mut [u8], k: usize, f: File)
    requires { 2 + k * 8 + 8 ≤ length files.old }
    ensures { files.new ≡ overlay files.old (2 + k * 8) (file_slot f) }
{
    let [p0, p1] = f.publisher.to_le_bytes();
    let [d0, d1] = f.day.to_le_bytes();
    let [c0, c1, c2, _] = f.count.to_le_bytes();
    let slot = [f.kind, p0, p1, d0, d1, c0, c1, c2];
    run::write(files, HEAD + k * SLOT, &slot);
}

// Says that n files are filed.
pub fn put_count(files: &mut [u8], n: u16)
    requires { 2 ≤ length files.old }
    ensures { files.new ≡ overlay files.old 0 (low_first 2 n) }
{
    word::put2(files, 0, n);
}

// Whether a file is in range.
#[tactic(auto, unfolding(crate::specs::journals::Files::good_file))]
fn good_file(f: File) -> bool
    ensures { result ≡ good_file f }
{
    f.kind <= 1 && f.publisher <= Code::HIGHEST.0 && f.day <= LAST_DAY
}

// Whether each of the first n files is.
#[tactic(auto, using(crate::proofs::journals::Counting::files))]
pub fn good_files(files: &[u8], n: usize) -> bool
    requires { 2 + n * 8 ≤ length files.now }
    ensures { result ≡ all good_file (table n (file_at files.now)) }
{
    for k in 0..n {
        if !good_file(file_at(files, k)) {
            return false;
        }
    }
    true
}
