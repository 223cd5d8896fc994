// Pieces of a line of bytes that every layout is made of: pieces between separators, decimal digits,
// and bytes laid into a lent buffer.
#![tactic(auto)]

ghost use Rattle.std.specs.Prelude.{◌≡◌, [], ◌∷◌, ◌+◌, ◌-◌, ◌≤◌, ◌<◌, length};
ghost use Rattle.laws.specs.Split.{split, piece_of, end_of};
ghost use Rattle.laws.specs.Digits.{digits, down, size_of};
ghost use Rattle.laws.specs.Overlay.{Laid};
ghost use Rattle.text.specs.Spelt.{spells, digits_of};

// Where the piece of `s` that starts at `at` ends: at the next separator, or with `s`.
pub fn field_end(s: &[u8], at: usize, sep: u8) -> usize
    ensures { result ≡ end_of sep s.now at }
{
    for i in at..s.len() {
        if s[i] == sep {
            return i;
        }
    }
    at.max(s.len())
}

// How many separators `s` has: one less than it has pieces.
pub fn cuts(s: &[u8], sep: u8) -> usize
    ensures { result ≡ length (split sep s.now) - 1 }
{
    s.iter().filter(|&&b| b == sep).count()
}

// The piece `k` of `s`, from 0; nothing where there is none.
pub fn piece(s: &[u8], sep: u8, k: usize) -> &[u8]
    ensures { result.now ≡ piece_of sep s.now k }
{
    let mut at: usize = 0;
    for _passed in 0..k {
        let e = field_end(s, at, sep);
        if s.len() <= e {
            return &[];
        }
        at = e + 1;
    }
    let e = field_end(s, at, sep);
    &s[at..e]
}

// The number that the digits of `f` spell when they follow `start`.
fn spell(f: &[u8], start: u64) -> Option<u64>
    requires { (start ≤ 1) × (length f.now ≤ 18) }
    ensures { result ≡ spells start f.now }
{
    let mut n = start;
    for &b in f {
        if !b.is_ascii_digit() {
            return None;
        }
        n = n * 10 + u64::from(b - b'0');
    }
    Some(n)
}

// The number that at most 18 digits spell, behind a leading 1 where `lead` asks for one.
pub fn read_digits(f: &[u8], lead: bool) -> Option<u64>
    ensures { result ≡ digits_of lead f.now }
{
    if 18 < f.len() {
        return None;
    }
    spell(f, u64::from(lead))
}

// How many digits follow the first digit of `n`, counted up to `most`.
pub fn size(n: u64, most: usize) -> usize
    ensures { result ≡ size_of most n }
{
    let mut m = n;
    for k in 0..most {
        if m < 10 {
            return k;
        }
        m /= 10;
    }
    most
}

// `n` without its last `k` digits.
pub fn leading(n: u64, k: usize) -> u64
    ensures { result ≡ down k n }
{
    let mut front = n;
    for _ in 0..k {
        front /= 10;
    }
    front
}

// One byte into a lent buffer; what follows it is the answer.
pub fn put_byte(out: &mut [u8], at: usize, b: u8) -> usize
    requires { at < length out.old }
    ensures { Laid out.old at (b ∷ []) out.new result }
{
    out[at] = b;
    at + 1
}

fn digit(d: u64) -> u8
    requires { d < 10 }
    ensures { result ≡ 48 + d }
{
    b'0' + d as u8
}

// The last `k` digits of `n` into a lent buffer; what follows them is the answer.
pub fn put_digits(out: &mut [u8], at: usize, k: usize, n: u64) -> usize
    requires { at + k ≤ length out.old }
    ensures { Laid out.old at (digits k n) out.new result }
{
    let mut m = n;
    for i in (0..k).rev() {
        out[at + i] = digit(m % 10);
        m /= 10;
    }
    at + k
}
