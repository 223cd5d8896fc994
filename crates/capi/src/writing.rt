// Writing files of each kind.
ghost use Rattle.std.specs.Prelude.{◌≡◌, length};
ghost use Rattle.records.specs.names.Written.{written_told};
ghost use Rattle.files.specs.Writing.{file_of, file_answer};
ghost use Rattle.capi.specs.Kinds.{kind_by};
ghost use Rattle.capi.specs.Told.{in_numbers};
ghost use Rattle.capi.specs.Writing.{Writes};

use crate::told::Numbers;
use crate::{kinds, told};
use composing::write;
use records::names::written::NotWritten;

// Writing: 0, and the length; 4, and the place of the fault; 41.
impl From<Result<usize, NotWritten>> for Numbers {
    ghost from_gives = { λ a n. n ≡ in_numbers 0 (written_told a) };

    fn from(written: Result<usize, NotWritten>) -> Numbers {
        match written {
            Ok(n) => told::with(0, n),
            Err(NotWritten::Fault(i)) => told::with(4, i),
            Err(NotWritten::Long) => told::alone(41),
        }
    }
}

// A file of a kind, from the words of its records: 0, and its length; 4, and the place of the first record that its layout can't hold; 41
// where `out` is too short. On both refusals `out` keeps its bytes; bytes behind a written file stay.
pub fn dagskimra_write(kind: u8, words: &[u64], out: &mut [u8], more: &mut u64) -> u8
    ensures { Writes (file_answer (kind_by kind) words.now (length out.old)) (file_of (kind_by kind) words.now) out.old out.new result more.new }
{
    let w = write::write(kinds::kind_by(kind), words, out);
    let t = Numbers::from(w);
    *more = t.first;
    t.number
}
