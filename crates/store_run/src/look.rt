// What is looked at, and texts that are printed as they are.
use crate::{ask, example, line, print};
use desk::{Host, copy_in};
use shown::Shown;
use std::fmt;
use std::fmt::Write;
use store::entry_slots::entry;
use store::journals::records::Journal;
use store::readable;

// A checksum over all bytes: one byte changed changes it.
fn step(h: u64, b: u8) -> u64 {
    (h % 1000000000039 * 257 + b as u64 + 1) % 1000000000039
}

fn sum(start: u64, s: &[u8]) -> u64 {
    s.iter().fold(start, |h, &b| step(h, b))
}

fn sum_all(t: &[u8], f: &[u8], r: &[u8], c: &[u8], e: &[u8]) -> u64 {
    sum(sum(sum(sum(sum(0, t), f), r), c), e)
}

// Whether each byte from a place on is 7.
fn sevens(s: &[u8], from: usize) -> bool {
    s.iter().skip(from).all(|b| *b == 7)
}

// Whether in each buffer all is 7 from the place on that the fields from 3 on say.
fn left(line: &[u8], t: &[u8], f: &[u8], r: &[u8], c: &[u8], e: &[u8]) -> bool {
    sevens(t, line::number(line, 3))
        & sevens(f, line::number(line, 4))
        & sevens(r, line::number(line, 5))
        & sevens(c, line::number(line, 6))
        & sevens(e, line::number(line, 7))
}

// Whether the buffers read as a store exactly where the field 2 is 1.
fn reads(line: &[u8], t: &[u8], f: &[u8], r: &[u8], c: &[u8], e: &[u8]) -> bool {
    readable::readable(t, f, r, c, e) == (line::number(line, 2) == 1)
}

fn said(rt: &impl Host, line: &[u8], w: &[u8], ok: bool) {
    print::text(rt, line::field(line, 1));
    print::either(rt, w, ok, print::HOLDS, print::FAILS);
    print::end(rt);
}

// Whether every byte is as it was when it was marked.
fn kept(rt: &impl Host, w: &[u8], same: bool) {
    print::either(rt, w, same, print::SAME, print::CHANGED);
    print::end(rt);
}

// Text that is put together in a buffer, as far as there is room.
#[derive(Drop)]
struct Spelt<'a> {
    room: &'a mut [u8],
    used: usize,
}

impl fmt::Write for Spelt<'_> {
    fn write_str(&mut self, text: &str) -> fmt::Result {
        self.used = copy_in(self.room, self.used, text.as_bytes());
        Ok(())
    }
}

// The open reports, each behind a blank.
fn open(rt: &impl Host, w: &[u8], s: &[u8]) {
    for i in 0..8 {
        let place = text::piece(s, b';', i);
        if place.is_empty() {
            return;
        }
        print::word(rt, w, print::BLANK);
        print::text(rt, place);
    }
}

// An entry as the program shows it, with words between its parts.
fn spread(rt: &impl Host, line: &[u8], w: &[u8], s: &[u8]) {
    print::text(rt, line::field(line, 1));
    print::word(rt, w, print::HOLDER);
    print::text(rt, text::piece(s, b'\t', 0));
    print::word(rt, w, print::LAST);
    print::text(rt, text::piece(s, b'\t', 1));
    print::word(rt, w, print::OPEN);
    open(rt, w, text::piece(s, b'\t', 2));
    print::end(rt);
}

// entry;WHAT;K: the entry of a line of the table.
fn entry(rt: &impl Host, line: &[u8], w: &[u8], e: &[u8]) {
    let k = line::number(line, 2);
    if 1024 <= k || e.len() < 102400 {
        return;
    }
    let mut room = [0u8; 1024];
    let mut spelt = Spelt {
        room: &mut room,
        used: 0,
    };
    let _ = write!(spelt, "{}", Shown(entry::entry_at(e, k)));
    let n = spelt.used;
    spread(rt, line, w, line::first(&room, n));
}

// All but the first byte.
fn rest(rt: &impl Host, line: &[u8]) {
    print::text(rt, line.get(1..).unwrap_or(&[]));
}

// What a line looks at.
pub fn one<'a>(
    rt: &impl Host,
    line: &[u8],
    w: &[u8],
    mark: &mut u64,
    good: &mut bool,
    t: &[u8],
    f: &'a [u8],
    r: &'a [u8],
    c: &'a [u8],
    e: &[u8],
) {
    match line::byte(line, 0) {
        b'=' => {
            rest(rt, line);
            print::end(rt);
        }
        b'-' => rest(rt, line),
        b'e' => entry(rt, line, w, e),
        b'r' => said(rt, line, w, reads(line, t, f, r, c, e)),
        b'l' => said(
            rt,
            line,
            w,
            reads(line, t, f, r, c, e) & left(line, t, f, r, c, e),
        ),
        b'm' => *mark = sum_all(t, f, r, c, e),
        b'k' => kept(rt, w, *mark == sum_all(t, f, r, c, e)),
        b'a' => ask::about(rt, line, w, t, f, r, c),
        b'j' => ask::record(rt, line, w, Journal::Regular, t, f, r, c),
        b'c' => ask::record(rt, line, w, Journal::Correction, t, f, r, c),
        b'd' => ask::figure(rt, w, t, f, r, c, e),
        b'o' => example::came(rt, line, w, good, example::is_open(line, e)),
        b'h' => example::came(rt, line, w, good, example::holder(e)),
        b'.' => example::ended(rt, w, good),
        _ => {}
    }
}
