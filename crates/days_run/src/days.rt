// Days and dates: what the calendar makes of a line's columns, held against what the line states.
//     2014-05-22 + 002 AT + 1 T = 2014-05-27 di  SECTION       so many working days, then calendar days, after a date
//     2011-10-15 is no AT                    sa  SECTION       a day that is no working day
use crate::input;
use calendar::dates::{CalendarDays, Date, Weekday};
use calendar::working_days::{DayKind, WorkingDays};
use calendar::{dates, working_days};

// For a fault, and where the calendar ends.
const NONE: u16 = 65535;

// The day of a date.
pub fn found(date: Date) -> u16 {
    dates::day_of(date).map_or(NONE, |day| day.0)
}

// The k-th working day after a day.
pub fn after(n: u16, k: u8) -> u16 {
    working_days::working_day_after(CalendarDays(n), WorkingDays(k)).map_or(NONE, |day| day.0)
}

// 0 for a day that is none of work, 1 for one that is, and 2 outside.
pub fn works(n: u16) -> u64 {
    match working_days::kind_of(CalendarDays(n)) {
        DayKind::Working => 1,
        DayKind::Free => 0,
        DayKind::Outside => 2,
    }
}

// 0 for Monday to 6 for Sunday, and 7 outside.
pub fn weekday(n: u16) -> usize {
    match dates::weekday_of(CalendarDays(n)) {
        Weekday::Monday => 0,
        Weekday::Tuesday => 1,
        Weekday::Wednesday => 2,
        Weekday::Thursday => 3,
        Weekday::Friday => 4,
        Weekday::Saturday => 5,
        Weekday::Sunday => 6,
        Weekday::Outside => 7,
    }
}

// The eight digits of a date, yyyymmdd.
fn eight(x: Date) -> u64 {
    u64::from(x.year) * 10000 + u64::from(x.month) * 100 + u64::from(x.day)
}

// The eight digits of a day's date, and 0 where it has none, or one of another day.
pub fn dated(n: u16) -> u64 {
    match dates::date_of(CalendarDays(n)) {
        Some(x) if found(x) == n => eight(x),
        _ => 0,
    }
}

// The date that a line spells yyyy-mm-dd, between blanks.
fn date_at(s: &[u8], k: usize) -> Date {
    let f = text::piece(s, b' ', k);
    Date {
        year: (input::number(f, b'-', 0) % 10000) as u16,
        month: (input::number(f, b'-', 1) % 100) as u8,
        day: (input::number(f, b'-', 2) % 100) as u8,
    }
}

// Whether the line's weekday, between blanks, is that of a date.
fn is_weekday(s: &[u8], k: usize, date: Date) -> bool {
    let here = text::piece(b"mo di mi do fr sa so --", b' ', weekday(found(date)));
    here == text::piece(s, b' ', k)
}

// The date that is here, where another is stated.
fn outcome(rt: &impl Print, here: u64, ok: bool) {
    input::ended(rt, ok);
    if ok {
        return;
    }
    let (year, month, day) = (here / 10000, here / 100 % 100, here % 100);
    let _ = print!(rt; ", here {year}-{month:02}-{day:02}");
}

pub fn counted(rt: &impl Print, s: &[u8]) {
    let stated = date_at(s, 8);
    let on = after(
        found(date_at(s, 0)),
        (input::number(s, b' ', 2) % 256) as u8,
    );
    let more = (input::number(s, b' ', 5) % 16) as u16;
    let here = dated(on % 40000 + more); // no day there is has a higher number
    outcome(rt, here, (here == eight(stated)) & is_weekday(s, 9, stated));
}

pub fn free(rt: &impl Print, s: &[u8]) {
    let date = date_at(s, 0);
    input::ended(rt, (works(found(date)) == 0) & is_weekday(s, 23, date));
}
