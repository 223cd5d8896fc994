// Dates, day numbers and weekdays.
ghost use Rattle.std.specs.Prelude.{◌≡◌, ◌<◌, ◌≤◌};
ghost use Rattle.calendar.specs.Dates.{leap, year_days, month_days, year_start, month_start, year_of, month_of, in_calendar};
ghost use Rattle.calendar.specs.Answers.{day_of, date_of, full_year, weekday_of};

// A count of calendar days (KT); as a day's number, those since 1998-01-01.
#[derive(Clone, Copy, PartialEq, Eq)]
pub struct CalendarDays(pub u16);

// A date, of the calendar or not.
#[derive(Clone, Copy, PartialEq, Eq)]
pub struct Date {
    pub year: u16,
    pub month: u8,
    pub day: u8,
}

// The day of the week on which a day falls. `Outside` stands beside the seven days, as `weekday_of` in specs/ and what specs/Paper says of it have it.
#[derive(Clone, Copy, PartialEq, Eq)]
pub enum Weekday {
    Outside,
    Monday,
    Tuesday,
    Wednesday,
    Thursday,
    Friday,
    Saturday,
    Sunday,
}

pub const LAST_DAY: u16 = 18992;

const MONTHS: [u16; 13] = [0, 31, 28, 31, 30, 31, 30, 31, 31, 30, 31, 30, 31];

// The days before the first of each month, of a year that has no leap day; there is no month 0.
const MONTH_STARTS: [u16; 13] = [0, 0, 31, 59, 90, 120, 151, 181, 212, 243, 273, 304, 334];

const WEEK: [Weekday; 7] = [
    Weekday::Monday,
    Weekday::Tuesday,
    Weekday::Wednesday,
    Weekday::Thursday,
    Weekday::Friday,
    Weekday::Saturday,
    Weekday::Sunday,
];

// In the calendar's years each fourth one is a leap year.
fn leap_in_calendar(year: u16) -> bool
    requires { (1998 ≤ year) × (year ≤ 2049) }
    ensures { result ≡ leap year }
{
    year % 4 == 0
}

fn month_days(year: u16, month: u8) -> u16
    requires { (1998 ≤ year) × (year ≤ 2049) }
    ensures { result ≡ month_days year month }
{
    if 12 < month {
        return 0;
    }
    if month == 2 {
        if leap_in_calendar(year) {
            return 29;
        }
        return 28;
    }
    MONTHS[month as usize]
}

// The day number of 1 January: 365 for each year since 1998, and the leap days among them.
fn year_start(year: u16) -> u16
    requires { (1998 ≤ year) × (year ≤ 2049) }
    ensures { result ≡ year_start year }
{
    365 * (year - 1998) + (year - 1997) / 4
}

// The days of a year before the first of a month.
fn month_start(year: u16, month: u8) -> u16
    requires { (1998 ≤ year) × (year ≤ 2049) × (month ≤ 12) }
    ensures { result ≡ month_start year month }
{
    let before = MONTH_STARTS[month as usize];
    if month < 3 {
        return before;
    }
    if leap_in_calendar(year) {
        return before + 1;
    }
    before
}

// The day of a date.
pub fn day_of(date: Date) -> Option<CalendarDays>
    ensures { result ≡ day_of date }
{
    let Date { year, month, day } = date;
    let day = day as u16;
    if year < 1998 {
        return None;
    }
    if 2049 < year {
        return None;
    }
    if day < 1 {
        return None;
    }
    if month_days(year, month) < day {
        return None;
    }
    let before = year_start(year) + month_start(year, month);
    Some(CalendarDays(before + (day - 1)))
}

// The year of a day: four years have 1461 days.
fn year_of(n: u16) -> u16
    requires { n ≤ 18992 }
    ensures { result ≡ year_of n }
{
    let quarters = 4 * (n as u32) + 2;
    1998 + (quarters / 1461) as u16
}

// The month in which the day `n` of a year lies, from 0.
fn month_of(year: u16, n: u16) -> u8
    requires { (1998 ≤ year) × (year ≤ 2049) × (n < year_days year) }
    ensures { result ≡ month_of year n }
{
    for month in (2..13).rev() {
        if month_start(year, month) <= n {
            return month;
        }
    }
    1
}

// The date of a day.
pub fn date_of(day: CalendarDays) -> Option<Date>
    ensures { result ≡ date_of day.0 }
{
    let n = day.0;
    if LAST_DAY < n {
        return None;
    }
    let year = year_of(n);
    let m = n - year_start(year);
    let month = month_of(year, m);
    let d = m - month_start(year, month);
    Some(Date {
        year,
        month,
        day: (d + 1) as u8,
    })
}

// The year that two digits stand for.
pub fn full_year(two: u8) -> Option<u16>
    ensures { result ≡ full_year two }
{
    match two {
        0..=49 => Some(2000 + two as u16),
        98 | 99 => Some(1900 + two as u16),
        _ => None,
    }
}

// Whether a day lies in the calendar.
pub fn in_calendar(day: CalendarDays) -> bool
    ensures { result ≡ in_calendar day.0 }
{
    day.0 <= LAST_DAY
}

// The day of the week on which a day falls.
pub fn weekday_of(day: CalendarDays) -> Weekday
    ensures { result ≡ weekday_of day.0 }
{
    let n = day.0;
    if LAST_DAY < n {
        return Weekday::Outside;
    }
    WEEK[((n + 3) % 7) as usize]
}
