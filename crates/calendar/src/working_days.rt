// Working days, and counting them.
ghost use Rattle.std.specs.Prelude.{◌≡◌, ◌≤◌};
ghost use Rattle.calendar.specs.Holidays.{working};
ghost use Rattle.calendar.specs.Answers.{day_kind};
ghost use Rattle.calendar.specs.WorkingDays.{working_day_after};

use crate::dates::{CalendarDays, LAST_DAY};
use crate::holidays::is_holiday;

// A count of working days (AT).
#[derive(Clone, Copy, PartialEq, Eq)]
pub struct WorkingDays(pub u8);

// What a day is: three answers, as `dagskimra_kind_of_day` gives them.
#[derive(Clone, Copy, PartialEq, Eq)]
pub enum DayKind {
    Working,
    Free,
    Outside,
}

// Whether a day of the calendar is a working day.
fn works(day: u16) -> bool
    requires { day ≤ 18992 }
    ensures { result ≡ working day }
{
    (day + 3) % 7 < 5 && !is_holiday(day)
}

// Whether a day is a working day.
pub fn kind_of(day: CalendarDays) -> DayKind
    ensures { result ≡ day_kind day.0 }
{
    let d = day.0;
    if LAST_DAY < d {
        return DayKind::Outside;
    }
    if works(d) {
        return DayKind::Working;
    }
    DayKind::Free
}

// The day that is `count` working days after `day`.
pub fn working_day_after(day: CalendarDays, count: WorkingDays) -> Option<CalendarDays>
    ensures { result ≡ working_day_after day.0 count.0 }
{
    let d = day.0;
    let mut left = count.0;
    if LAST_DAY < d {
        return None;
    }
    if left == 0 {
        return Some(day);
    }
    for next in d + 1..=LAST_DAY {
        if works(next) {
            left -= 1;
            if left == 0 {
                return Some(CalendarDays(next));
            }
        }
    }
    None
}
