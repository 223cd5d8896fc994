// Text, numbers and the words of the input's first line on standard output.
use desk::Host;

pub const SHORT: usize = 1;

pub const BAD_TABLE: usize = 2;

pub const ANSWER: usize = 3;

pub const COUNT: usize = 4;

pub const PLACE: usize = 5;

pub const SAME: usize = 6;

pub const CHANGED: usize = 7;

pub const FILED: usize = 8;

pub const HOLDER: usize = 9;

pub const LAST: usize = 10;

pub const OPEN: usize = 11;

pub const BLANK: usize = 12;

pub const HOLDS: usize = 13;

pub const FAILS: usize = 14;

pub const OK: usize = 15;

pub const BUT: usize = 16;

pub const TWO_FILES: usize = 17;

pub const NOW: usize = 18;

pub const HELD_BY: usize = 19;

pub const ON: usize = 20;

pub const NEVER: usize = 21;

pub const PAIR: usize = 22;

pub const AND: usize = 23;

pub const NO_PAIR: usize = 24;

pub const NO_NUMBER: usize = 25;

pub const NO_STORE: usize = 26;

pub const AT: usize = 27;

pub const FROM: usize = 28;

pub const GETS: usize = 29;

pub const SAYING: usize = 30;

pub const DIFFER: usize = 31;

pub const UNREADABLE: usize = 32;

// What can't be written is left out.
pub fn text(rt: &impl Host, s: &[u8]) {
    let _ = rt.write_all(s);
}

pub fn wide(rt: &impl Host, n: u64) {
    let _ = print!(rt; "{n}");
}

pub fn number(rt: &impl Host, n: usize) {
    wide(rt, n as u64);
}

pub fn end(rt: &impl Host) {
    text(rt, b"\n");
}

// The word k.
pub fn word(rt: &impl Host, w: &[u8], k: usize) {
    text(rt, text::piece(w, b';', k));
}

// A number behind the word k.
pub fn count(rt: &impl Host, w: &[u8], k: usize, n: usize) {
    word(rt, w, k);
    number(rt, n);
}

// One of two words.
pub fn either(rt: &impl Host, w: &[u8], yes: bool, k: usize, other: usize) {
    if yes {
        word(rt, w, k);
        return;
    }
    word(rt, w, other);
}
