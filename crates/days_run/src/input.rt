// The cases, line by line; the head of the file stdin says how one is written.
use crate::{days, folds, keys};

// What can't be written is left out.
pub fn say(rt: &impl Print, s: &[u8]) {
    let _ = rt.write_all(s);
}

// The number at a place between separators, and 0 where there is none.
pub fn number(s: &[u8], sep: u8, k: usize) -> u64 {
    text::read_digits(text::piece(s, sep, k), false).unwrap_or(0)
}

// The number at a place between blanks, which may be a difference: 0-1 is the greatest number there is.
pub fn wrapped(s: &[u8], k: usize) -> u64 {
    let f = text::piece(s, b' ', k);
    number(f, b'-', 0).wrapping_sub(number(f, b'-', 1))
}

// The end of a line: whether what is here is what is stated.
pub fn ended(rt: &impl Print, ok: bool) {
    let _ = print!(rt; "{}", if ok { " ok" } else { " differs" });
}

fn todo(rt: &impl Print, what: u8, words: &[u8], numbers: &[u8]) {
    match what {
        b'+' => days::counted(rt, words),
        b'-' => days::free(rt, words),
        b'o' => keys::run(rt, numbers),
        _ => folds::compared(rt, what, numbers),
    }
}

// The words are said, and what comes of the case.
fn line(rt: &impl Print, s: &[u8]) {
    let what = match s.first() {
        None | Some(b'#') => return,
        Some(what) => *what,
    };
    let words = text::piece(s, b'\t', 1);
    say(rt, words);
    todo(rt, what, words, text::piece(s, b'\t', 2));
    say(rt, b"\n");
}

// Each line that is ended.
pub fn lines(rt: &impl Print, s: &[u8]) {
    for s in s.split_inclusive(|&b| b == b'\n') {
        if let Some(s) = s.strip_suffix(b"\n") {
            line(rt, s);
        }
    }
}
