// Whether two entries are equal.
ghost use Rattle.std.specs.Prelude.{◌≡◌};
ghost use Rattle.laws.specs.Lists.{same_lists};
ghost use Rattle.entries.specs.comparing.Same.{same_place, same_last, same_entry};

use crate::entry::{Entry, PLACES, Place};
use calendar::dates::CalendarDays;

pub fn same_place(p: Place, q: Place) -> bool
    ensures { result ≡ same_place p q }
{
    p == q
}

pub fn same_places(ps: [Place; PLACES], qs: [Place; PLACES]) -> bool
    ensures { result ≡ same_lists same_place ps qs }
{
    ps == qs
}

pub fn same_last(l: Option<CalendarDays>, m: Option<CalendarDays>) -> bool
    ensures { result ≡ same_last l m }
{
    l == m
}

pub fn same_entry(e: Entry, f: Entry) -> bool
    ensures { result ≡ same_entry e f }
{
    e == f
}
