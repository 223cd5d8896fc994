// file;WHAT;KIND;PUBLISHER;DAY;N;RECORD;TEXT;MORE: a file is offered, and MORE times again on the days behind.
use crate::{line, print};
use calendar::dates::CalendarDays;
use desk::Host;
use filing::checking::answer;
use filing::checking::answer::NotFiled;
use filing::entering::kind::Filable;
use filing::file;

// What was answered: the number, with the count or the place where it has one.
fn said(rt: &impl Host, line: &[u8], w: &[u8], a: Result<usize, NotFiled>) {
    print::text(rt, line::field(line, 1));
    print::count(rt, w, print::ANSWER, answer::number(a) as usize);
    match a {
        Ok(n) => {
            print::count(rt, w, print::COUNT, n);
            print::end(rt);
        }
        Err(NotFiled::Fault(at, _)) => print::count(rt, w, print::PLACE, at.place),
        _ => {}
    }
}

// Whether the file was filed; what was answered is said where it is offered once.
fn told(rt: &impl Host, line: &[u8], w: &[u8], a: Result<usize, NotFiled>) -> bool {
    if line::number(line, 8) == 0 {
        said(rt, line, w, a);
    }
    answer::number(a) == 0
}

// D for a default file, else a correction file.
fn kind(line: &[u8]) -> Filable {
    match line::field(line, 2) {
        [b'D', ..] => Filable::Default,
        _ => Filable::Correction,
    }
}

// The day that is i days behind the line's.
fn day(line: &[u8], i: usize) -> CalendarDays {
    let first = line::day(line, 4);
    CalendarDays(((usize::from(first.0) + i % 65536) % 65536) as u16)
}

// How often the file is filed, up to n times or to the first refusal.
fn filed(
    rt: &impl Host,
    line: &[u8],
    w: &[u8],
    text: &[u8],
    n: usize,
    t: &mut [u8; 14338],
    f: &mut [u8; 8194],
    r: &mut [u8; 368640],
    c: &mut [u8; 200704],
    e: &mut [u8; 102400],
) -> usize {
    let k = kind(line);
    let publisher = line::field(line, 3);
    for i in 0..n {
        let a = file::file(t, f, r, c, e, k, publisher, day(line, i), text);
        if !told(rt, line, w, a) {
            return i;
        }
    }
    n
}

pub fn one(
    rt: &impl Host,
    line: &[u8],
    w: &[u8],
    text: &[u8],
    t: &mut [u8; 14338],
    f: &mut [u8; 8194],
    r: &mut [u8; 368640],
    c: &mut [u8; 200704],
    e: &mut [u8; 102400],
) {
    let more = line::number(line, 8);
    let n = filed(rt, line, w, text, more + 1, t, f, r, c, e);
    if more != 0 {
        print::text(rt, line::field(line, 1));
        print::count(rt, w, print::FILED, n);
        print::end(rt);
    }
}
