// Words for what was found.
use files::judge::Fault;
use records::names::kind::FileKind;
use records::names::written::NotWritten;

// What can't be written is left out.
pub fn say(rt: &impl Print, text: &[u8]) {
    let _ = rt.write_all(text);
}

// The words of the program, by their places in one list.
pub const NOTHING: usize = 0;

pub const FAULT: usize = 12;

pub const NAME_FAULT: usize = 13;

pub const NEXT: usize = 14;

pub const DIFFERS: usize = 15;

pub const FILE_WRITTEN: usize = 16;

pub const NAME_WRITTEN: usize = 17;

pub const BEHIND: usize = 18;

pub const COMMA: usize = 19;

pub const WALKED: usize = 20;

pub const END: usize = 21;

const BLANK: usize = 22;

const FROM: usize = 23;

const COLON: usize = 24;

const CAUSES: usize = 24;

pub fn word(rt: &impl Print, k: usize) {
    say(
        rt,
        text::piece(
            b"| same| CHANGED|the same|not the same|: default, day |: correction, day |: request, day |: response, day | bytes| records|4 at | fault|: fault|\n  | differs|\n  written: |, written: | changed behind|, | walked|\n| |; |: |character|length|date|code|value|closing|after|41",
            b'|',
            k,
        ),
    );
}

pub fn number(rt: &impl Print, n: usize) {
    let _ = print!(rt; "{n}");
}

pub fn same(rt: &impl Print, yes: bool) {
    word(rt, if yes { 1 } else { 2 });
}

pub fn the_same(rt: &impl Print, yes: bool) {
    word(rt, if yes { 3 } else { 4 });
}

pub fn kind(rt: &impl Print, kind: FileKind) {
    word(
        rt,
        match kind {
            FileKind::Default => 5,
            FileKind::Correction => 6,
            FileKind::Request => 7,
            FileKind::Response => 8,
        },
    );
}

fn records(rt: &impl Print, n: usize) {
    number(rt, n);
    word(rt, 10);
}

fn fault(rt: &impl Print, place: usize) {
    word(rt, 11);
    number(rt, place);
}

// `N records`, or `4 at I`
pub fn judged(rt: &impl Print, j: Result<usize, Fault>) {
    match j {
        Ok(n) => records(rt, n),
        Err(first) => fault(rt, first.at.place),
    }
}

// `N bytes`, or `4 at I`, or `41`
pub fn written(rt: &impl Print, w: Result<usize, NotWritten>) {
    match w {
        Ok(n) => {
            number(rt, n);
            word(rt, 9);
        }
        Err(NotWritten::Fault(i)) => fault(rt, i),
        Err(NotWritten::Long) => word(rt, 32),
    }
}

// How many bytes were written, and 0 where it was refused.
pub fn length(w: Result<usize, NotWritten>) -> usize {
    w.unwrap_or(0)
}

// `N records`, or place, field and cause
pub fn found(rt: &impl Print, j: Result<usize, Fault>) {
    match j {
        Ok(n) => records(rt, n),
        Err(fault) => {
            number(rt, fault.at.place);
            word(rt, BLANK);
            number(rt, fault.at.field);
            word(rt, BLANK);
            word(rt, CAUSES + fault.cause.number() as usize);
        }
    }
}

// A letter for a count of records, from `a` for none; a digit for the place of a fault.
pub fn sign(rt: &impl Print, j: Result<usize, Fault>) {
    let b = match j {
        Ok(n) => b'a' + (n % 26) as u8,
        Err(fault) => b'0' + (fault.at.place % 10) as u8,
    };
    say(rt, &[b]);
}

// A number for what was found, from 1. No case has a thousand records.
fn sum(j: Result<usize, Fault>) -> u64 {
    match j {
        Ok(n) => 1 + n as u64 % 1000,
        Err(fault) => {
            let place = fault.at.place as u64 % 1000;
            let field = fault.at.field as u64 % 1000;
            1000 + place + field * 1000 + fault.cause.number() as u64 * 1000000
        }
    }
}

// What was found at `at`, said where it is not what was found before.
pub fn changed(rt: &impl Print, at: usize, j: Result<usize, Fault>, last: u64) -> u64 {
    let mark = sum(j);
    if mark != last {
        word(rt, FROM);
        number(rt, at);
        word(rt, COLON);
        found(rt, j);
    }
    mark
}
