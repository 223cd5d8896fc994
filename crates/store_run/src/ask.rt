// What the store answers: where a number stands and why, a record with its verdict, the figure.
use crate::{line, print};
use asking::answering::figure;
use asking::looks::NotSeen;
use asking::pairs::Stored;
use asking::{record, stand, why};
use desk::Host;
use entries::entry;
use fields::number::Number;
use reworking::rework::ALL_FILES;
use store::journals::records::Journal;
use store::numbers::lines;

fn from(rt: &impl Host, w: &[u8], publisher: u16, day: u16) {
    print::count(rt, w, print::FROM, publisher as usize);
    print::count(rt, w, print::ON, day as usize);
}

fn stored(rt: &impl Host, w: &[u8], bytes: &[u8], s: Stored) {
    print::text(rt, bytes);
    print::count(rt, w, print::AT, s.place);
    from(rt, w, s.publisher.0, s.day.0);
}

fn why<'a>(
    rt: &impl Host,
    w: &[u8],
    t: &[u8],
    f: &'a [u8],
    r: &'a [u8],
    c: &'a [u8],
    number: Number,
) {
    match why::look(t, f, r, c, number) {
        Ok(Some(pair)) => {
            let shown = Ok(Some(pair));
            print::word(rt, w, print::PAIR);
            stored(rt, w, why::first_part(r, c, shown), pair.first);
            print::word(rt, w, print::AND);
            stored(rt, w, why::second_part(r, c, shown), pair.second);
        }
        Ok(None) => print::word(rt, w, print::NO_PAIR),
        Err(NotSeen::UnknownNumber) => print::word(rt, w, print::NO_NUMBER),
        Err(NotSeen::Unshowable) => print::word(rt, w, print::NO_STORE),
    }
}

// Where the line i stands over the first n files.
fn standing<'a>(
    rt: &impl Host,
    w: &[u8],
    t: &[u8],
    f: &'a [u8],
    n: usize,
    r: &'a [u8],
    c: &'a [u8],
    i: usize,
) {
    let e = match stand::look(t, f, n, r, c, i) {
        Ok(s) => s.entry,
        Err(_) => entry::first(entry::line_in(None)),
    };
    print::count(rt, w, print::HELD_BY, e.holder.0 as usize);
    match e.last {
        None => print::word(rt, w, print::NEVER),
        Some(d) => print::count(rt, w, print::ON, d.0 as usize),
    }
}

// about;I: the line I of the table, over the first two files and over all; nothing where there is none.
pub fn about<'a>(
    rt: &impl Host,
    line: &[u8],
    w: &[u8],
    t: &[u8],
    f: &'a [u8],
    r: &'a [u8],
    c: &'a [u8],
) {
    let i = line::number(line, 1);
    if t.len() < lines::TABLE_LENGTH {
        return;
    }
    if lines::NUMBERS <= i {
        return;
    }
    if lines::line_count(t) <= i {
        return;
    }
    let l = lines::line_at(t, i);
    let number = l.number;
    let first = number.first;
    print::wide(rt, first.0);
    print::word(rt, w, print::TWO_FILES);
    standing(rt, w, t, f, 2, r, c, i);
    print::word(rt, w, print::NOW);
    standing(rt, w, t, f, ALL_FILES, r, c, i);
    why(rt, w, t, f, r, c, number);
    print::end(rt);
}

// journal;PLACE, corrections;PLACE: a record; nothing where there is none.
pub fn record<'a>(
    rt: &impl Host,
    line: &[u8],
    w: &[u8],
    j: Journal,
    t: &[u8],
    f: &'a [u8],
    r: &'a [u8],
    c: &'a [u8],
) {
    let place = line::number(line, 1);
    let Ok(found) = record::look(t, f, r, c, j, place) else {
        return;
    };
    let x = found.shown;
    print::number(rt, found.place);
    from(rt, w, x.publisher.0, x.day.0);
    print::count(rt, w, print::AT, x.place);
    print::count(
        rt,
        w,
        print::GETS,
        verdict::verdicts::number(x.verdict) as usize,
    );
    print::word(rt, w, print::SAYING);
    print::text(rt, record::part(r, c, Ok(found)));
    print::end(rt);
}

// differ: how many entries differ from those worked out.
pub fn figure<'a>(
    rt: &impl Host,
    w: &[u8],
    t: &[u8],
    f: &'a [u8],
    r: &'a [u8],
    c: &'a [u8],
    e: &[u8],
) {
    let d = figure::figure(t, f, r, c, e);
    match d {
        Ok(n) => print::count(rt, w, print::DIFFER, n),
        Err(_) => print::word(rt, w, print::UNREADABLE),
    }
    print::end(rt);
}
