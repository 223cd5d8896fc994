// Whether a file is filed twice: a number for each file, sorted.
ghost use Rattle.std.specs.Prelude.{◌≡◌, true, ◌+◌, ◌*◌, ◌≤◌, length, take};
ghost use Rattle.laws.specs.Lists.{table, all, none_twice};
ghost use Rattle.store.specs.journals.Files.{file_at, good_file, same_file};
ghost use Rattle.store.specs.journals.Twice.{key_of, keys_of};

use crate::journals::files;
use crate::journals::files::File;
use crate::slots::keys;

// A number for a file's kind, publisher and day, and for no others.
#[tactic(auto, unfolding(crate::specs::journals::Twice::key_of))]
fn key_of(f: File) -> u64
    ensures { result ≡ key_of f }
{
    (u64::from(f.kind) * 65536 + u64::from(f.publisher)) * 65536 + u64::from(f.day)
}

// Lays the numbers of the first n files into `keys`.
#[tactic(auto, using(crate::proofs::journals::Keys::keys_none, crate::proofs::journals::Keys::keys_next))]
fn gather(files: &[u8], n: usize, keys: &mut [u64])
    requires { (2 + n * 8 ≤ length files.now) × (n ≤ length keys.old) }
    ensures { take n keys.new ≡ keys_of n files.now }
{
    for k in 0..n {
        keys[k] = key_of(files::file_at(files, k));
    }
}

// Whether no two of the first n files are of one kind, publisher and day.
#[tactic(auto, using(crate::proofs::journals::Keys::files_once))]
pub(crate) fn no_file_twice(files: &[u8], n: usize) -> bool
    requires { (2 + n * 8 ≤ length files.now) × (n ≤ 1024) × (all good_file (table n (file_at files.now)) ≡ true) }
    ensures { result ≡ none_twice same_file (table n (file_at files.now)) }
{
    let mut numbers = [0u64; 10240];
    gather(files, n, &mut numbers);
    keys::rise(&mut numbers, n)
}
