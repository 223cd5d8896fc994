// A file judged as it is, and damaged at each byte in turn.
use crate::show;
use records::names::kind::FileKind;

// The place of the fault, where it is to be brief, or else place, field and cause; or how many records there are.
pub fn whole(rt: &impl Print, kind: FileKind, file: &[u8], brief: bool) {
    let j = files::judge::judge(kind, file);
    if brief {
        show::judged(rt, j);
        return;
    }
    show::found(rt, j);
}

// What is found in turn `i`: a sign for it where it is to be brief, or else said where it is not what was found before.
fn turn(rt: &impl Print, i: usize, kind: FileKind, file: &[u8], last: u64, brief: bool) -> u64 {
    let j = files::judge::judge(kind, file);
    if brief {
        show::sign(rt, j);
        return 0;
    }
    show::changed(rt, i, j, last)
}

// Cut short to each length, from none to all of it.
pub fn cut(rt: &impl Print, kind: FileKind, file: &[u8], brief: bool) {
    let mut last: u64 = 0;
    for n in 0..=file.len() {
        last = turn(rt, n, kind, &file[..n], last, brief);
    }
}

// The file, or what follows its first byte.
fn part(file: &[u8], behind: bool) -> &[u8] {
    match file {
        [_, behind_first @ ..] if behind => behind_first,
        _ => file,
    }
}

// Each byte replaced by `b`; or left out, where the byte in front of it is held to take its place, and the file begins behind its first byte.
pub fn each_byte(rt: &impl Print, kind: FileKind, file: &mut [u8], b: u8, brief: bool, out: bool) {
    let mut held = b;
    let mut last: u64 = 0;
    for i in 0..file.len() {
        let was = file[i];
        file[i] = held;
        last = turn(rt, i, kind, part(file, out), last, brief);
        if out {
            held = was;
        } else {
            file[i] = was;
        }
    }
}
