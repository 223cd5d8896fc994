// What is worked out for a number: its holder, the last confirmed porting date, and the places for open reports.
ghost use Rattle.std.specs.Prelude.{◌≡◌};
ghost use Rattle.entries.specs.Entry.{free_place, first_entry, is_missing, line_in};

use crate::report::Report;
use calendar::dates::CalendarDays;
use fields::code::Code;
use fields::kind::Kind;

// How many places an entry has for open reports.
pub const PLACES: usize = 8;

// A place: an open report with its publication day and its place in its file. A free place has `taken` false and holds what
// `free_place` in specs/ says, so that two entries with the same open reports in the same places are equal.
// The flag stands beside the report, and not an Option around it, as `free_place`, `holds_open` and `no_two_equal` in specs/ have it.
#[derive(Clone, Copy, PartialEq, Eq)]
pub struct Place {
    pub taken: bool,
    pub report: Report,
    pub day: CalendarDays,
    pub at: u32,
}

#[derive(Clone, Copy, PartialEq, Eq)]
pub struct Entry {
    pub holder: Code,
    pub last: Option<CalendarDays>,
    pub places: [Place; PLACES],
}

// A number's line of the number table: its owner and its set-up day.
#[derive(Clone, Copy, PartialEq, Eq)]
pub struct Line {
    pub owner: Code,
    pub setup: CalendarDays,
}

// A place that holds nothing.
pub fn free_place() -> Place
    ensures { result ≡ free_place }
{
    Place {
        taken: false,
        report: Report {
            kind: Kind::P,
            date: CalendarDays(0),
            losing: Code(0),
            gaining: Code(0),
        },
        day: CalendarDays(0),
        at: 0,
    }
}

// The first entry of a line: the owner holds the number, nothing is confirmed, all places are free.
pub fn first(line: Line) -> Entry
    ensures { result ≡ first_entry line }
{
    Entry {
        holder: line.owner,
        last: None,
        places: [free_place(); PLACES],
    }
}

// The number is not in the table.
pub fn is_missing(n: Option<Line>) -> bool
    ensures { result ≡ is_missing n }
{
    n.is_none()
}

// The number's line; where it has none, one that no rule comes to ask for.
pub fn line_in(n: Option<Line>) -> Line
    ensures { result ≡ line_in n }
{
    n.unwrap_or(Line {
        owner: Code(0),
        setup: CalendarDays(0),
    })
}
