// Examples of verdicts, over the first line of the table and its entry; where the table has no line, the number is not in it.
use crate::{line, print};
use desk::Host;
use entries::entry::Line;
use entries::report;
use fields::code::Code;
use store::entry_slots::entry;
use store::numbers::lines;
use verdict::step::{Record, Says};
use verdict::{step, verdicts};

// The record in the fields from 2 on: the kind of its file, its day, its publisher, its bytes.
fn record(line: &[u8]) -> Record {
    let kind = (line::number(line, 2) % 256) as u8;
    let day = line::day(line, 3);
    let publisher = Code((line::number(line, 4) % 1000) as u16);
    let says = rules::records::says_in(kind, line::field(line, 5));
    Record {
        publisher: publisher,
        day: day,
        at: 0,
        says: says,
    }
}

// The first line of the table.
fn listed(t: &[u8]) -> Option<Line> {
    if t.len() < 14338 || lines::line_count(t) == 0 {
        return None;
    }
    let l = lines::line_at(t, 0);
    Some(Line {
        owner: l.owner,
        setup: l.setup,
    })
}

// The verdict on the record; the entry is then the one after it.
fn judged(line: &[u8], n: Option<Line>, e: &mut [u8]) -> u8 {
    if e.len() < 102400 {
        return 0;
    }
    let rec = record(line);
    let x = entry::entry_at(e, 0);
    let Some(l) = n else {
        return verdicts::number(step::verdict(n, x, rec));
    };
    let o = step::step(l, x, rec);
    let next = o.entry;
    let v = o.verdict;
    entry::put_entry(e, 0, next);
    verdicts::number(v)
}

// Whether the report in the field 2, whose gaining network is spelt out, is open: 1 or 0.
pub fn is_open(line: &[u8], e: &[u8]) -> u16 {
    if e.len() < 102400 {
        return 0;
    }
    let x = entry::entry_at(e, 0);
    let places = x.places;
    let says = rules::records::says_in(0, line::field(line, 2));
    let Says::Reported(p) = says else {
        return 2;
    };
    let k = p.kind;
    entries::places::is_open(places, k, report::meant(Code::HIGHEST, p)) as u16
}

// The number of the network by which the number is held.
pub fn holder(e: &[u8]) -> u16 {
    if e.len() < 102400 {
        return 0;
    }
    let x = entry::entry_at(e, 0);
    x.holder.0
}

// What came is what the field 1 says; a difference is written.
pub fn came(rt: &impl Host, line: &[u8], w: &[u8], good: &mut bool, got: u16) {
    if got as usize == line::number(line, 1) {
        return;
    }
    print::count(rt, w, print::BUT, got as usize);
    *good = false;
}

pub fn ended(rt: &impl Host, w: &[u8], good: &mut bool) {
    if *good {
        print::word(rt, w, print::OK);
    }
    print::end(rt);
    *good = true;
}

// verdict;EXPECTED;KIND;DAY;PUBLISHER;RECORD
pub fn one(
    rt: &impl Host,
    line: &[u8],
    w: &[u8],
    good: &mut bool,
    t: &mut [u8; 14338],
    e: &mut [u8; 102400],
) {
    if line::byte(line, 0) == b'v' {
        came(rt, line, w, good, judged(line, listed(t), e) as u16);
    }
}
