// Bytes as the input spells them, laid into a buffer.
ghost use Rattle.std.specs.Prelude.{◌≤◌, ◌<◌};

use crate::line;

// A digit, and 0 where there is none.
fn digit(s: &[u8], i: usize) -> u16
    ensures { result < 10 }
{
    (line::byte(s, i) % 16 % 10) as u16
}

// The digit of k whose place has this worth.
fn place(k: usize, worth: usize) -> u8
    requires { 1 ≤ worth }
{
    b'0' + (k / worth % 10) as u8
}

// The byte that is spelt at the start of s: `|` CR, `~` LF; `@`, `<`, `^`, `>` the thousands, hundreds, tens, ones of k; `{`, `}` its low
// and its high byte; `\` and three digits a byte by its number; any other itself.
fn byte(s: &[u8], k: usize) -> u8 {
    match line::byte(s, 0) {
        b'|' => b'\r',
        b'~' => b'\n',
        b'@' => place(k, 1000),
        b'<' => place(k, 100),
        b'^' => place(k, 10),
        b'>' => place(k, 1),
        b'{' => (k % 256) as u8,
        b'}' => (k / 256 % 256) as u8,
        b'\\' => ((digit(s, 1) * 100 + digit(s, 2) * 10 + digit(s, 3)) % 256) as u8,
        b => b,
    }
}

// How many bytes of those that are left belong to the one that b begins, beside b.
fn more(b: u8, left: usize) -> usize
    requires { 1 ≤ left }
    ensures { result < left }
{
    if left < 4 {
        return 0;
    }
    if b == b'\\' {
        return 3;
    }
    0
}

// A text, laid from a place on as far as there is room; what follows it is the answer.
fn lay(out: &mut [u8], at: usize, s: &[u8], k: usize) -> usize {
    let mut to = at;
    let mut i: usize = 0;
    // no `for`: a byte is spelt by one or by four
    while i < s.len() {
        if out.len() <= to {
            return to;
        }
        out[to] = byte(&s[i..], k);
        to += 1;
        i = i + more(s[i], s.len() - i) + 1;
    }
    to
}

// A text n times, each `apart` behind the one before, with k one higher.
fn repeat(out: &mut [u8], at: usize, s: &[u8], n: usize, apart: usize, first: usize) -> usize {
    let mut to = at;
    let mut k = first;
    for _ in 0..n {
        lay(out, to, s, k);
        to = to % 1000000 + apart % 1000000;
        k = k % 65536 + 1;
    }
    to
}

// The text of a table or a file: the field 6 as often as the field 5 says, then the field 7.
pub fn text(out: &mut [u8; 262144], line: &[u8]) -> usize {
    let s = line::field(line, 6);
    let n = repeat(out, 0, s, line::number(line, 5), s.len(), 0);
    lay(out, n, line::field(line, 7), 0)
}

fn put_in(line: &[u8], out: &mut [u8]) {
    repeat(
        out,
        line::number(line, 2),
        line::field(line, 3),
        line::number(line, 4) + 1,
        line::number(line, 5),
        line::number(line, 6),
    );
}

// put;BUFFER;AT;BYTES, and where they are put more than once: MORE;APART;K.
pub fn put(
    line: &[u8],
    t: &mut [u8; 14338],
    f: &mut [u8; 8194],
    r: &mut [u8; 368640],
    c: &mut [u8; 200704],
    e: &mut [u8; 102400],
) {
    match line::number(line, 1) {
        0 => put_in(line, t),
        1 => put_in(line, f),
        2 => put_in(line, r),
        3 => put_in(line, c),
        _ => put_in(line, e),
    }
}
