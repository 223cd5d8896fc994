// start;WHAT;SHORT;WORDS;;N;RECORD;TEXT: a store is started from a table.
ghost use Rattle.std.specs.Prelude.{◌≤◌};

use crate::{line, print};
use desk::Host;
use starting::start;
use starting::start::NotStarted;

// What was answered, with the line's own words before the count; nothing where it has none.
fn said(rt: &impl Host, line: &[u8], w: &[u8], a: Result<usize, NotStarted>) {
    if line::field(line, 3).len() == 0 {
        return;
    }
    print::text(rt, line::field(line, 1));
    match a {
        Ok(n) => {
            print::text(rt, line::field(line, 3));
            print::number(rt, n);
        }
        Err(NotStarted::Short) => print::word(rt, w, print::SHORT),
        Err(NotStarted::BadTable) => print::word(rt, w, print::BAD_TABLE),
    }
}

// The length that is lent of a buffer of n bytes: a byte less of the one that is to be short.
fn lent(n: usize, short: bool) -> usize
    ensures { result ≤ n }
{
    if short { n.saturating_sub(1) } else { n }
}

// The buffer that is a byte short is counted from 1 on.
fn started(
    short: usize,
    text: &[u8],
    t: &mut [u8],
    f: &mut [u8],
    r: &mut [u8],
    c: &mut [u8],
    e: &mut [u8],
) -> Result<usize, NotStarted> {
    let table = lent(t.len(), short == 1);
    let files = lent(f.len(), short == 2);
    let regular = lent(r.len(), short == 3);
    let corrections = lent(c.len(), short == 4);
    let entries = lent(e.len(), short == 5);
    start::start(
        text,
        &mut t[0..table],
        &mut f[0..files],
        &mut r[0..regular],
        &mut c[0..corrections],
        &mut e[0..entries],
    )
}

pub fn begin(
    rt: &impl Host,
    line: &[u8],
    w: &[u8],
    text: &[u8],
    t: &mut [u8; 14338],
    f: &mut [u8; 8194],
    r: &mut [u8; 368640],
    c: &mut [u8; 200704],
    e: &mut [u8; 102400],
) {
    let a = started(line::number(line, 2), text, t, f, r, c, e);
    said(rt, line, w, a);
}
