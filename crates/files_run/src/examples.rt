// Files and names: each read, files record by record, and written back.
use crate::{lines, show, writing};
use records::names::kind::FileKind;
use records::names::name::Name;

// A line of the file at the place `i`. Said: whether the record that is found there is the line, and its values too. Not said: whether it is a
// record.
fn is_found(
    rt: &impl Print,
    kind: FileKind,
    file: &[u8],
    line: &[u8],
    i: usize,
    said: bool,
) -> bool {
    if !said {
        return records::line::is_record(kind, line);
    }
    show::word(rt, show::NEXT);
    show::say(rt, line);
    if line == files::read::record_bytes(kind, file, i) {
        return lines::is_kept(kind, file, i, line);
    }
    false
}

pub fn counted(n: usize, more: bool) -> usize {
    if more && n < 1000000 { n + 1 } else { n }
}

// Each record as a part of the file, found by a walk: how many are right.
pub fn walk(rt: &impl Print, kind: FileKind, file: &[u8], n: usize, said: bool) -> usize {
    let mut right: usize = 0;
    let mut at: usize = 0;
    for i in 0..n {
        let end = files::read::line_end(file, at);
        if end < at || file.len() <= end {
            return right;
        }
        right = counted(right, is_found(rt, kind, file, &file[at..end], i, said));
        at = end + 1;
    }
    right
}

// The records, and the file written from the words that `numbers` gives for them.
pub fn file(rt: &impl Print, kind: FileKind, file: &[u8], numbers: &[u8]) {
    let j = files::judge::judge(kind, file);
    show::judged(rt, j);
    let Ok(n) = j else {
        return;
    };
    if walk(rt, kind, file, n, true) != n {
        show::word(rt, show::DIFFERS);
    }
    show::word(rt, show::FILE_WRITTEN);
    writing::one(rt, b'f', kind, file, numbers);
}

// The name written from what was read.
fn name_back(rt: &impl Print, m: Name) {
    let mut out = [0u8; 16];
    let n = show::length(m.write(&mut out));
    if n <= 16 {
        show::word(rt, show::NAME_WRITTEN);
        show::say(rt, &out[0..n]);
    }
}

pub fn name(rt: &impl Print, s: &[u8]) {
    show::say(rt, s);
    let Some(m) = Name::read(s) else {
        show::word(rt, show::NAME_FAULT);
        return;
    };
    let day = m.day;
    let kind = m.kind;
    show::kind(rt, kind);
    show::number(rt, usize::from(day.0));
    name_back(rt, m);
}
