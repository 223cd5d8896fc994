// Runs what the lines of the input ask for: stores that are started, filled, damaged, filed into and asked, and examples of verdicts.
// The input's first line has the words of the output; the comment below it says what the others mean.
#![tactic(auto)]

mod ask;
mod example;
mod lay;
mod line;
mod look;
mod offer;
mod print;
mod start;

use desk::Host;

// A table or a file that a line gives: a store is started with it, or it is offered.
fn given(
    rt: &impl Host,
    line: &[u8],
    w: &[u8],
    x: &mut [u8; 262144],
    t: &mut [u8; 14338],
    f: &mut [u8; 8194],
    r: &mut [u8; 368640],
    c: &mut [u8; 200704],
    e: &mut [u8; 102400],
) {
    let n = lay::text(x, line);
    let text = line::first(x, n);
    if line::byte(line, 0) == b's' {
        start::begin(rt, line, w, text, t, f, r, c, e);
        return;
    }
    offer::one(rt, line, w, text, t, f, r, c, e);
}

// Bytes that a line puts, or what it looks at. `mark` is a checksum over a store, and `good` whether all of an example has come as it should.
fn other(
    rt: &impl Host,
    line: &[u8],
    w: &[u8],
    mark: &mut u64,
    good: &mut bool,
    t: &mut [u8; 14338],
    f: &mut [u8; 8194],
    r: &mut [u8; 368640],
    c: &mut [u8; 200704],
    e: &mut [u8; 102400],
) {
    if line::byte(line, 0) == b'p' {
        lay::put(line, t, f, r, c, e);
        return;
    }
    example::one(rt, line, w, good, t, e);
    look::one(rt, line, w, mark, good, t, f, r, c, e);
}

fn one(
    rt: &impl Host,
    line: &[u8],
    w: &[u8],
    mark: &mut u64,
    good: &mut bool,
    x: &mut [u8; 262144],
    t: &mut [u8; 14338],
    f: &mut [u8; 8194],
    r: &mut [u8; 368640],
    c: &mut [u8; 200704],
    e: &mut [u8; 102400],
) {
    match line::byte(line, 0) {
        b's' | b'f' => given(rt, line, w, x, t, f, r, c, e),
        _ => other(rt, line, w, mark, good, t, f, r, c, e),
    }
}

fn lines(
    rt: &impl Host,
    s: &[u8],
    x: &mut [u8; 262144],
    t: &mut [u8; 14338],
    f: &mut [u8; 8194],
    r: &mut [u8; 368640],
    c: &mut [u8; 200704],
    e: &mut [u8; 102400],
) {
    let w = text::piece(s, b'\n', 0);
    let mut mark: u64 = 0;
    let mut good = true;
    for i in 0..text::cuts(s, b'\n') {
        let line = text::piece(s, b'\n', i);
        one(rt, line, w, &mut mark, &mut good, x, t, f, r, c, e);
    }
}

fn main(rt: HostRuntime) {
    let mut table = [7u8; 14338];
    let mut files = [7u8; 8194];
    let mut regular = [7u8; 368640];
    let mut corrections = [7u8; 200704];
    let mut entries = [7u8; 102400];
    let mut text = [0u8; 262144];
    let mut input = [0u8; 65536];
    let mut from = rt.stdin();
    let n = desk::file::read_full(&mut from, &mut input);
    lines(
        &rt,
        &input[..n],
        &mut text,
        &mut table,
        &mut files,
        &mut regular,
        &mut corrections,
        &mut entries,
    );
}
