// A run of days, or of dates, folded to one number and held against what vectors.py works out.
use crate::{days, input};
use calendar::dates::Date;

// The day of the n-th date from 1990 on, of each year the months 0 to 15, of each the days 0 to 39.
fn numbered(n: u16) -> u64 {
    let date = Date {
        year: 1990 + n / 640,
        month: (n % 640 / 40) as u8,
        day: (n % 40) as u8,
    };
    u64::from(days::found(date))
}

// What is worked out of a day: its date, its weekday, whether it is one of work, the k-th such day after it; or a date's day.
fn value(what: u8, n: u16, k: u8) -> u64 {
    match what {
        b'd' => days::dated(n),
        b'w' => days::weekday(n) as u64,
        b'k' => days::works(n),
        b'a' => u64::from(days::after(n, k)),
        _ => numbered(n),
    }
}

fn folded(what: u8, from: u16, to: u16, k: u8) -> u64 {
    (from..to).fold(0, |h, n| {
        (h % 1000003 * 31 + value(what, n, k) % 1000003) % 1000003
    })
}

pub fn compared(rt: &impl Print, what: u8, numbers: &[u8]) {
    let from = (input::number(numbers, b' ', 0) % 65536) as u16;
    let to = (input::number(numbers, b' ', 1) % 65536) as u16;
    let k = (input::number(numbers, b' ', 2) % 256) as u8;
    input::ended(
        rt,
        folded(what, from, to, k) == input::number(numbers, b' ', 3),
    );
}
