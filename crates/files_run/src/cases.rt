// The cases, line by line; the head of the file stdin says how one is written.
ghost use Rattle.std.specs.Prelude.{◌≤◌, length};

use crate::{damage, examples, lines, show, writing};
use desk::file;
use records::names::kind::FileKind;
use std::io::Read;

// The byte that a sign stands for.
fn plain(b: u8) -> u8 {
    match b {
        b'|' => b'\r',
        b'^' => b'\n',
        b'~' => b'\t',
        b'(' => 0,
        b')' => 31,
        b'<' => 127,
        b'>' => 128,
        b'[' => 191,
        b']' => 192,
        b'{' => 228,
        b'}' => 255,
        _ => b,
    }
}

// The text that a case spells, as far as there is room for it: how many bytes.
fn spelt(s: &[u8], text: &mut [u8]) -> usize
    ensures { result ≤ length text.new }
{
    for (place, &b) in text.iter_mut().zip(s) {
        *place = plain(b);
    }
    s.len().min(text.len())
}

// The first byte, and 0 where there is none.
fn first(s: &[u8]) -> u8 {
    s.first().copied().unwrap_or(0)
}

fn kind_of(letter: u8) -> FileKind {
    match letter {
        b'K' => FileKind::Correction,
        b'Q' => FileKind::Request,
        b'R' => FileKind::Response,
        _ => FileKind::Default,
    }
}

// What a case asks for, done to its text, and what it names besides. A capital letter asks to be brief.
fn todo(rt: &impl Print, what: u8, kind: FileKind, text: &mut [u8], more: &[u8]) {
    let brief = what < b'a';
    match what {
        b'l' => lines::one(rt, kind, text),
        b'n' => examples::name(rt, text),
        b'f' => examples::file(rt, kind, text, more),
        b'g' | b'w' => writing::one(rt, what, kind, text, more),
        b'J' | b'j' => damage::whole(rt, kind, text, brief),
        b'C' | b'c' => damage::cut(rt, kind, text, brief),
        b'x' => damage::each_byte(rt, kind, text, 0, false, true),
        b'R' | b'r' => damage::each_byte(rt, kind, text, plain(first(more)), brief, false),
        _ => show::word(rt, show::NOTHING),
    }
}

fn answer(rt: &impl Print, s: &[u8], what: u8, room: &mut [u8]) {
    let n = spelt(text::piece(s, b'\t', 3), room);
    let kind = kind_of(first(text::piece(s, b'\t', 1)));
    todo(rt, what, kind, &mut room[..n], text::piece(s, b'\t', 4));
}

// The words, and what comes of the case.
fn line(rt: &impl Print, s: &[u8]) {
    let what = first(s);
    if what == b'#' {
        return;
    }
    show::say(rt, text::piece(s, b'\t', 2));
    let mut room = [0u8; 1024];
    answer(rt, s, what, &mut room);
    show::word(rt, show::END);
}

pub fn run<F: Read>(rt: &impl Print, from: &mut F) {
    let mut input = [0u8; 300000];
    let n = file::read_full(from, &mut input);
    for s in input[..n].split_inclusive(|&b| b == b'\n') {
        if let Some(s) = s.strip_suffix(b"\n") {
            line(rt, s);
        }
    }
}
