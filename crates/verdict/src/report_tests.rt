// The questions that the table of rules asks about a report and the open ones.
ghost use Rattle.std.specs.Prelude.{◌≡◌};
ghost use Rattle.calendar.specs.WorkingDays.{working_day_after};
ghost use Rattle.verdict.specs.report_tests.Tests.{return_period, to_other, before_last, equals_last, partner_open, zed_open, zed_day, not_yet, too_soon};

use calendar::dates::CalendarDays;
use calendar::working_days;
use calendar::working_days::WorkingDays;
use entries::entry::{PLACES, Place};
use entries::report::Report;
use fields::code::Code;
use fields::kind::Kind;

// A P that answers a Z is published on this working day after that Z's publication at the earliest.
pub const RETURN_PERIOD: WorkingDays = WorkingDays(5);

// A Z whose gaining network is not the owner.
pub fn to_other(owner: Code, r: Report) -> bool
    ensures { result ≡ to_other owner r }
{
    match r.kind {
        Kind::P | Kind::L => false,
        Kind::Z => r.gaining != owner,
    }
}

pub fn before_last(date: CalendarDays, last: Option<CalendarDays>) -> bool
    ensures { result ≡ before_last date last }
{
    last.is_some_and(|l| date.0 < l.0)
}

pub fn equals_last(date: CalendarDays, last: Option<CalendarDays>) -> bool
    ensures { result ≡ equals_last date last }
{
    last == Some(date)
}

// P with a matching open L, or L with a matching open P.
pub fn partner_open(places: [Place; PLACES], r: Report) -> bool
    ensures { result ≡ partner_open r places }
{
    match r.kind {
        Kind::P => entries::places::is_open(places, Kind::L, r),
        Kind::L => entries::places::is_open(places, Kind::P, r),
        Kind::Z => false,
    }
}

// P with a matching open Z.
pub fn zed_open(places: [Place; PLACES], r: Report) -> bool
    ensures { result ≡ zed_open r places }
{
    match r.kind {
        Kind::P => entries::places::is_open(places, Kind::Z, r),
        Kind::L | Kind::Z => false,
    }
}

// The day is before this one, or the calendar ends first.
fn not_yet(day: CalendarDays, earliest: Option<CalendarDays>) -> bool
    ensures { result ≡ not_yet day earliest }
{
    earliest.is_none_or(|d| day.0 < d.0)
}

// The publication day of the matching open Z.
fn zed_day(places: [Place; PLACES], r: Report) -> CalendarDays
    ensures { result ≡ zed_day r places }
{
    entries::places::place_at(places, entries::places::place_of(places, Kind::Z, r)).day
}

// The day from which on a P may answer a Z that was published on this one.
fn earliest(published: CalendarDays) -> Option<CalendarDays>
    ensures { result ≡ working_day_after published.0 return_period }
{
    working_days::working_day_after(published, RETURN_PERIOD)
}

// The day is before the fifth working day after the publication of the matching open Z.
pub fn too_soon(places: [Place; PLACES], day: CalendarDays, r: Report) -> bool
    ensures { result ≡ too_soon day r places }
{
    not_yet(day, earliest(zed_day(places, r)))
}
