// The fields of a line, between semicolons. One that is missing is empty, and is the number 0.
ghost use Rattle.std.specs.Prelude.{◌<◌};

use calendar::dates::CalendarDays;
use fields::date;

pub fn byte(s: &[u8], i: usize) -> u8 {
    s.get(i).copied().unwrap_or(0)
}

// The first n bytes.
pub fn first(s: &[u8], n: usize) -> &[u8] {
    s.get(..n).unwrap_or(s)
}

pub fn field(line: &[u8], k: usize) -> &[u8] {
    text::piece(line, b';', k)
}

pub fn number(line: &[u8], k: usize) -> usize
    ensures { result < 1000000 }
{
    let n = text::read_digits(field(line, k), false).unwrap_or(0);
    (n % 1000000) as usize
}

// A day as its date, ddmmyyyy; or as its number, so that days outside the calendar can be tried too.
pub fn day(line: &[u8], k: usize) -> CalendarDays {
    match date::read(field(line, k)) {
        Some(d) => d,
        None => CalendarDays((number(line, k) % 65536) as u16),
    }
}
