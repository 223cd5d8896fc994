// Day numbers and working days.
ghost use Rattle.std.specs.Prelude.{◌≡◌, length};
ghost use Rattle.calendar.specs.Answers.{day_of, date_of, day_kind};
ghost use Rattle.calendar.specs.Holidays.{holidays, mark_of};
ghost use Rattle.calendar.specs.WorkingDays.{working_day_after};
ghost use Rattle.capi.specs.Days.{day_word, spelt, date_word, kind_word, later_word};

use calendar::dates::{CalendarDays, Date};
use calendar::table::COUNT;
use calendar::working_days::{DayKind, WorkingDays};
use calendar::{dates, holidays, working_days};

// What stands for no day: it is past the calendar's end.
pub const NO_DAY: u16 = 65535;

// ---- what is found, as a number
fn day_word(found: Option<CalendarDays>) -> u16
    ensures { result ≡ day_word found }
{
    match found {
        Some(d) => d.0,
        None => NO_DAY,
    }
}

fn spelt(x: Date) -> u32
    ensures { result ≡ spelt x }
{
    x.day as u32 * 1000000 + x.month as u32 * 10000 + x.year as u32
}

fn date_word(dated: Option<Date>) -> u32
    ensures { result ≡ date_word dated }
{
    match dated {
        Some(x) => spelt(x),
        None => 0,
    }
}

fn kind_word(kind: DayKind) -> u8
    ensures { result ≡ kind_word kind }
{
    match kind {
        DayKind::Working => 1,
        DayKind::Free => 0,
        DayKind::Outside => 2,
    }
}

// ---- what is exported
// The day of a date, or NO_DAY.
pub fn dagskimra_day_of(year: u16, month: u8, day: u8) -> u16
    ensures { result ≡ day_word (day_of (record { year = year; month = month; day = day })) }
{
    day_word(dates::day_of(Date { year, month, day }))
}

// The date of a day, ddmmyyyy as one number; 0 past the calendar's end.
pub fn dagskimra_date_of(day: u16) -> u32
    ensures { result ≡ date_word (date_of day) }
{
    date_word(dates::date_of(CalendarDays(day)))
}

// Whether a day is a working day: 1 if it is, 0 if it is not, 2 past the calendar's end.
pub fn dagskimra_kind_of_day(day: u16) -> u8
    ensures { result ≡ kind_word (day_kind day) }
{
    kind_word(working_days::kind_of(CalendarDays(day)))
}

// The day that is `count` working days after a day, or NO_DAY where the calendar ends.
pub fn dagskimra_working_day_after(day: u16, count: u8) -> u16
    ensures { result ≡ later_word (working_day_after day count) }
{
    day_word(working_days::working_day_after(CalendarDays(day), WorkingDays(count)))
}

// How many days the holiday list has, and its mark: entries that were worked out with another list are to be worked out again.
pub fn dagskimra_holidays(mark: &mut u64) -> u64
    ensures { (result ≡ length holidays) × (mark.new ≡ mark_of holidays) }
{
    *mark = holidays::mark();
    COUNT as u64
}
