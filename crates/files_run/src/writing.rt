// Files written from words. The numbers of a case, with blanks between them: the length of the buffer, how many words there are, and the words;
// where these are fewer they are taken again, the first of them one higher each time.
use crate::{examples, show};
use records::names::kind::FileKind;

fn number(s: &[u8], k: usize) -> u64 {
    text::read_digits(text::piece(s, b' ', k), false).unwrap_or(0)
}

// The word at `i`.
fn word(s: &[u8], i: usize) -> u64 {
    let cuts = text::cuts(s, b' ');
    if cuts < 2 {
        return 0;
    }
    let n = cuts - 1;
    let k = i % n;
    if 1000 < k {
        return 0;
    }
    let w = number(s, k + 2);
    if k == 0 {
        return w.wrapping_add((i / n) as u64);
    }
    w
}

// The first `used` words, as far as there is room for them.
fn fill(words: &mut [u64], s: &[u8], used: usize) {
    for (i, place) in words.iter_mut().enumerate().take(used) {
        *place = word(s, i);
    }
}

// What the writer answers; how many bytes it wrote.
fn written(rt: &impl Print, kind: FileKind, s: &[u8], words: &mut [u64], out: &mut [u8]) -> usize {
    let room = number(s, 0) as usize;
    let used = number(s, 1) as usize;
    fill(words, s, used);
    if words.len() < used {
        return 0;
    }
    if out.len() < room {
        return 0;
    }
    let w = composing::write::write(kind, &words[0..used], &mut out[0..room]);
    show::written(rt, w);
    show::length(w)
}

// How many bytes of the buffer from `at` on are not as they were.
fn changed(rt: &impl Print, s: &[u8], at: usize) {
    show::number(rt, s.iter().skip(at).filter(|b| **b != 85).count());
    show::word(rt, show::BEHIND);
}

// What is found in a file.
fn found(rt: &impl Print, kind: FileKind, file: &[u8]) {
    let j = files::judge::judge(kind, file);
    show::judged(rt, j);
    let Ok(n) = j else {
        return;
    };
    show::word(rt, show::COMMA);
    show::number(rt, examples::walk(rt, kind, file, n, false));
    show::word(rt, show::WALKED);
}

// What there is to say of the buffer in which `n` bytes were written.
fn looked_at(rt: &impl Print, what: u8, kind: FileKind, file: &[u8], out: &[u8], n: usize) {
    show::word(rt, show::COMMA);
    if out.len() < n {
        return;
    }
    match what {
        b'f' => show::the_same(rt, file == &out[..n]),
        b'w' => changed(rt, out, n),
        _ => found(rt, kind, &out[0..n]),
    }
}

fn answer(
    rt: &impl Print,
    what: u8,
    kind: FileKind,
    file: &[u8],
    s: &[u8],
    words: &mut [u64],
    out: &mut [u8],
) {
    let n = written(rt, kind, s, words, out);
    looked_at(rt, what, kind, file, out, n);
}

fn lend(
    rt: &impl Print,
    what: u8,
    kind: FileKind,
    file: &[u8],
    s: &[u8],
    words: &mut [u64; 49152],
    out: &mut [u8; 300000],
) {
    answer(rt, what, kind, file, s, words, out);
}

pub fn one(rt: &impl Print, what: u8, kind: FileKind, file: &[u8], s: &[u8]) {
    let mut words = [0u64; 49152];
    let mut out = [85u8; 300000];
    lend(rt, what, kind, file, s, &mut words, &mut out);
}
