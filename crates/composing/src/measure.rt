// Records given as plain words: one group of words after the other, judged and measured before anything is written.
ghost use Rattle.std.specs.Prelude.{◌≡◌};
ghost use Rattle.files.specs.Writing.{values_in};
ghost use Rattle.composing.specs.Measuring.{measured_from};

use records::names::kind::FileKind;
use records::names::written::NotWritten;

// How many records there are, and how many bytes their lines have.
#[derive(Clone, Copy)]
pub struct Measured {
    pub count: usize,
    pub bytes: usize,
}

// The records measured, or the place of the first that its layout can't hold.
pub(crate) fn measure(kind: FileKind, words: &[u64]) -> Result<Measured, NotWritten>
    ensures { result ≡ measured_from kind 0 0 (values_in kind words.now) }
{
    let w = records::words::width(kind);
    let mut count: usize = 0;
    let mut bytes: usize = 0;
    for values in words.chunks(w) {
        if !records::words::fits(kind, values) {
            return Err(NotWritten::Fault(count));
        }
        bytes += records::words::len(kind, values) + 1;
        count += 1;
    }
    Ok(Measured { count, bytes })
}
