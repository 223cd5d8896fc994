// The holiday list.
ghost use Rattle.std.specs.Prelude.{◌≡◌, eqb};
ghost use Rattle.laws.specs.Lists.{any};
ghost use Rattle.calendar.specs.Holidays.{holidays, mark_of};

use crate::table::HOLIDAYS;

// Whether a day is in the list, which never falls: looked for by halves.
pub fn is_holiday(day: u16) -> bool
    ensures { result ≡ any (eqb day) holidays }
{
    HOLIDAYS.binary_search(&day).is_ok()
}

// The mark of the list: with its length it tells the list from another, so that whoever keeps both knows which list was used.
pub fn mark() -> u64
    ensures { result ≡ mark_of holidays }
{
    let mut a: u64 = 1;
    let mut b: u64 = 0;
    for &day in &HOLIDAYS {
        a += u64::from(day);
        b += a;
    }
    b
}
