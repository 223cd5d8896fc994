// The closing record (4.5.2.3, 4.7.9): `Zeilenanzahl:`, the number of lines with this one, and a comma. Its CR is the line's end.
ghost use Rattle.std.specs.Prelude.{◌≡◌, ℕ, ◌+◌, ◌≤◌, length, eqb};
ghost use Rattle.laws.specs.Lists.{same_lists};
ghost use Rattle.laws.specs.Overlay.{Laid};
ghost use Rattle.records.specs.closing.Closing.{closing_text, begins};

// Whether two runs of bytes are the same.
#[tactic(auto, using(crate::proofs::Bytes::pointwise_same))]
pub fn same(a: &[u8], b: &[u8]) -> bool
    ensures { result ≡ same_lists eqb a.now b.now }
{
    a == b
}

// Whether a line begins as a closing record does.
pub fn begins(line: &[u8]) -> bool
    ensures { result ≡ begins line.now }
{
    line.starts_with(b"Zeilenanzahl:")
}

// How many bytes the closing record of `n` lines has.
#[tactic(auto, using(crate::proofs::closing::ClosingLaws::closings))]
pub fn text_len(n: u64) -> usize
    ensures { result ≡ length (closing_text n) }
{
    text::size(n, n as usize) + 15
}

// All of `bytes` into a lent buffer; what follows them is the answer.
#[tactic(auto, using(crate::proofs::Bytes::copied))]
pub(crate) fn put_all(out: &mut [u8], at: usize, bytes: &[u8]) -> usize
    requires { at + length bytes.now ≤ length out.old }
    ensures { Laid out.old at bytes.now out.new result }
{
    let end = at + bytes.len();
    out[at..end].copy_from_slice(bytes);
    end
}

// The closing record of `n` lines into a lent buffer; what follows it is the answer.
#[tactic(auto, using(crate::proofs::closing::ClosingLaws::closings))]
pub fn put(out: &mut [u8], at: usize, n: u64) -> usize
    requires { at + length (closing_text n) ≤ length out.old }
    ensures { Laid out.old at (closing_text n) out.new result }
{
    let k = text::size(n, n as usize);
    let number = put_all(out, at, b"Zeilenanzahl:");
    let comma = text::put_digits(out, number, k + 1, n);
    text::put_byte(out, comma, b',')
}

// Whether a line is the closing record of `n` lines.
#[tactic(auto, using(crate::proofs::closing::ClosingLaws::closings))]
pub fn is_closing(line: &[u8], n: u64) -> bool
    ensures { result ≡ same_lists eqb line.now (closing_text n) }
{
    let mut right = [0u8; 40];
    let end = put(&mut right, 0, n);
    same(line, &right[..end])
}
