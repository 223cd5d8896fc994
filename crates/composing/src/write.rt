// Files of each kind, written from plain words into a lent buffer.
ghost use Rattle.std.specs.Prelude.{◌≡◌, true, ◌+◌, ◌≤◌, length, take};
ghost use Rattle.laws.specs.Lists.{all};
ghost use Rattle.laws.specs.Overlay.{Laid};
ghost use Rattle.records.specs.names.Written.{Wrote};
ghost use Rattle.records.specs.Record.{fits};
ghost use Rattle.files.specs.Writing.{values_in, held_all, held_one, answer_to, file_of, file_answer};
ghost use Rattle.composing.specs.Measuring.{record_lines, closed_text};

use records::names::kind::FileKind;
use records::names::written::NotWritten;

// Each record with its CR, from the start of a lent buffer on; what follows them is the answer.
fn put_records(kind: FileKind, words: &[u64], out: &mut [u8]) -> usize
    requires { (all (fits kind) (values_in kind words.now) ≡ true) × (length (record_lines kind (values_in kind words.now)) ≤ length out.old) }
    ensures { Laid out.old 0 (record_lines kind (values_in kind words.now)) out.new result }
{
    let w = records::words::width(kind);
    let mut to: usize = 0;
    for values in words.chunks(w) {
        let end = records::words::put(kind, values, out, to);
        to = text::put_byte(out, end, b'\r');
    }
    to
}

// The records and the closing record of `lines` lines, from the start of a lent buffer on; what follows them is the answer.
fn put_closed(kind: FileKind, words: &[u64], lines: u64, out: &mut [u8]) -> usize
    requires { (all (fits kind) (values_in kind words.now) ≡ true) × ((lines ≡ length (values_in kind words.now) + 1) × (length (closed_text kind (values_in kind words.now)) ≤ length out.old)) }
    ensures { Laid out.old 0 (closed_text kind (values_in kind words.now)) out.new result }
{
    let at = put_records(kind, words, out);
    let end = records::closing::put(out, at, lines);
    text::put_byte(out, end, b'\r')
}

// A file with a closing record.
fn write_closed(kind: FileKind, words: &[u64], out: &mut [u8]) -> Result<usize, NotWritten>
    ensures { Wrote (answer_to (held_all kind (values_in kind words.now)) (closed_text kind (values_in kind words.now)) (length out.old)) (closed_text kind (values_in kind words.now)) out.old out.new result }
{
    let measured = crate::measure::measure(kind, words)?;
    if out.len() < measured.bytes {
        return Err(NotWritten::Long);
    }
    let lines = (measured.count + 1) as u64;
    if out.len() - measured.bytes < records::closing::text_len(lines) + 1 {
        return Err(NotWritten::Long);
    }
    Ok(put_closed(kind, words, lines, out))
}

// The first `w` words, or what is there.
fn group(words: &[u64], w: usize) -> &[u64]
    ensures { result.now ≡ take w words.now }
{
    &words[..w.min(words.len())]
}

// A file of one record, without a closing record.
fn write_one(kind: FileKind, words: &[u64], out: &mut [u8]) -> Result<usize, NotWritten>
    ensures { Wrote (answer_to (held_one kind (values_in kind words.now)) (record_lines kind (values_in kind words.now)) (length out.old)) (record_lines kind (values_in kind words.now)) out.old out.new result }
{
    let w = records::words::width(kind);
    let values = group(words, w);
    if !records::words::fits(kind, values) {
        return Err(NotWritten::Fault(0));
    }
    if w < words.len() {
        return Err(NotWritten::Fault(1));
    }
    if out.len() < records::words::len(kind, values) + 1 {
        return Err(NotWritten::Long);
    }
    Ok(put_records(kind, words, out))
}

// A file of a kind, from the words of its records. 4 and the place of the first record whose values its layout can't hold, then 41
// where the buffer is too short: on both the buffer keeps its bytes. Bytes behind a written file stay.
pub fn write(kind: FileKind, words: &[u64], out: &mut [u8]) -> Result<usize, NotWritten>
    ensures { Wrote (file_answer kind words.now (length out.old)) (file_of kind words.now) out.old out.new result }
{
    if kind.has_closing() {
        return write_closed(kind, words, out);
    }
    write_one(kind, words, out)
}
