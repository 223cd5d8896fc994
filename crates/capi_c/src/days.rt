// Day numbers and working days.
ghost use Rattle.std.specs.Prelude.{◌≡◌, length};
ghost use Rattle.calendar.specs.Answers.{day_of, date_of, day_kind};
ghost use Rattle.calendar.specs.Holidays.{holidays, mark_of};
ghost use Rattle.calendar.specs.WorkingDays.{working_day_after};
ghost use Rattle.capi.specs.Days.{day_word, date_word, kind_word, later_word};

// ---- what is exported
// The day of a date, or NO_DAY.
#[unsafe(no_mangle)]
pub extern "C" fn dagskimra_day_of(year: u16, month: u8, day: u8) -> u16
    ensures { result ≡ day_word (day_of (record { year = year; month = month; day = day })) }
{
    capi::days::dagskimra_day_of(year, month, day)
}

// The date of a day, ddmmyyyy as one number; 0 past the calendar's end.
#[unsafe(no_mangle)]
pub extern "C" fn dagskimra_date_of(day: u16) -> u32
    ensures { result ≡ date_word (date_of day) }
{
    capi::days::dagskimra_date_of(day)
}

// Whether a day is a working day: 1 if it is, 0 if it is not, 2 past the calendar's end.
#[unsafe(no_mangle)]
pub extern "C" fn dagskimra_kind_of_day(day: u16) -> u8
    ensures { result ≡ kind_word (day_kind day) }
{
    capi::days::dagskimra_kind_of_day(day)
}

// The day that is `count` working days after a day, or NO_DAY where the calendar ends.
#[unsafe(no_mangle)]
pub extern "C" fn dagskimra_working_day_after(day: u16, count: u8) -> u16
    ensures { result ≡ later_word (working_day_after day count) }
{
    capi::days::dagskimra_working_day_after(day, count)
}

// How many days the holiday list has, and its mark: entries that were worked out with another list are to be worked out again.
#[unsafe(no_mangle)]
pub extern "C" fn dagskimra_holidays(mark: &mut u64) -> u64
    ensures { (result ≡ length holidays) × (mark.new ≡ mark_of holidays) }
{
    capi::days::dagskimra_holidays(mark)
}
