// How many records the filed files have.
ghost use Rattle.std.specs.Prelude.{◌≡◌, ◌+◌, ◌*◌, ◌≤◌, ◌<◌, length};
ghost use Rattle.laws.specs.Lists.{table};
ghost use Rattle.store.specs.journals.Files.{file_at, records_in, records_of};

use crate::journals::files;
use crate::journals::files::File;

// What a file adds to the records of a kind.
#[tactic(auto, unfolding(crate::specs::journals::Files::records_in))]
pub fn records_in(f: File, kind: u8) -> usize
    ensures { (result ≡ records_in kind f) × (result ≤ f.count) }
{
    if f.kind == kind { f.count as usize } else { 0 }
}

// How many records the files of a kind among the first n have.
#[tactic(auto, using(crate::proofs::journals::Counting::counting))]
pub fn records_of(files: &[u8], n: usize, kind: u8) -> usize
    requires { (2 + n * 8 ≤ length files.now) × (n < 65536) }
    ensures { result ≡ records_of kind (table n (file_at files.now)) }
{
    let mut sum = 0;
    for k in 0..n {
        sum += records_in(files::file_at(files, k), kind);
    }
    sum
}
