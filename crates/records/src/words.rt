// Records from plain words.
ghost use Rattle.std.specs.Prelude.{◌≡◌, ◌+◌, ◌≤◌, length};
ghost use Rattle.laws.specs.Overlay.{Laid};
ghost use Rattle.records.specs.Record.{spelt, width_of, fits, text_of};

use crate::names::kind::FileKind;
use crate::record::Record;
use layout::correction::Correction;
use layout::report::Report;
use layout::request::Request;

// How many words a record of this kind is given by.
pub fn width(kind: FileKind) -> usize
    ensures { result ≡ width_of kind }
{
    match kind {
        FileKind::Default | FileKind::Response => 6,
        FileKind::Correction => 13,
        FileKind::Request => 2,
    }
}

// Whether words are the values of a record that the layout of this kind can hold.
#[tactic(auto, unfolding(crate::specs::Record::fits))]
pub fn fits(kind: FileKind, words: &[u64]) -> bool
    ensures { result ≡ fits kind words.now }
{
    match kind {
        FileKind::Default | FileKind::Response => Report::of_words(words).is_some(),
        FileKind::Correction => Correction::of_words(words).is_some(),
        FileKind::Request => Request::of_words(words).is_some(),
    }
}

fn len_of<R: Record>(words: &[u64]) -> usize
    ensures { result ≡ length (spelt R.text (R.of_words words.now)) }
{
    match R::of_words(words) {
        Some(record) => record.len(),
        None => 0,
    }
}

// How many bytes the record of these words has.
#[tactic(auto, unfolding(crate::specs::Record::text_of))]
pub fn len(kind: FileKind, words: &[u64]) -> usize
    ensures { result ≡ length (text_of kind words.now) }
{
    match kind {
        FileKind::Default | FileKind::Response => len_of::<Report>(words),
        FileKind::Correction => len_of::<Correction>(words),
        FileKind::Request => len_of::<Request>(words),
    }
}

#[tactic(auto, unfolding(laws::specs::Overlay::overlay))]
fn put_of<R: Record>(words: &[u64], out: &mut [u8], at: usize) -> usize
    requires { at + length (spelt R.text (R.of_words words.now)) ≤ length out.old }
    ensures { Laid out.old at (spelt R.text (R.of_words words.now)) out.new result }
{
    match R::of_words(words) {
        Some(record) => record.write(out, at),
        None => at,
    }
}

// The record of these words into a lent buffer; what follows it is the answer.
#[tactic(auto, unfolding(crate::specs::Record::text_of))]
pub fn put(kind: FileKind, words: &[u64], out: &mut [u8], at: usize) -> usize
    requires { at + length (text_of kind words.now) ≤ length out.old }
    ensures { Laid out.old at (text_of kind words.now) out.new result }
{
    match kind {
        FileKind::Default | FileKind::Response => put_of::<Report>(words, out, at),
        FileKind::Correction => put_of::<Correction>(words, out, at),
        FileKind::Request => put_of::<Request>(words, out, at),
    }
}
