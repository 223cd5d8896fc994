// The places for open reports: searched, filled and freed.
ghost use Rattle.std.specs.Prelude.{◌≡◌, map, get_or, set};
ghost use Rattle.entries.specs.Entry.{free_place};
ghost use Rattle.entries.specs.places.Places.{holds_open, lowest_free, place_of, is_open, is_full, lapsed, kept_in};

use crate::entry::{PLACES, Place};
use crate::report::Report;
use crate::{entry, report};
use calendar::dates::CalendarDays;
use fields::kind::Kind;

// The place holds an open report of the kind k that matches r.
pub fn holds(p: Place, k: Kind, r: Report) -> bool
    ensures { result ≡ holds_open k r p }
{
    p.taken && p.report.kind == k && report::matching(p.report, r)
}

// The lowest free place, or the number of places.
pub fn lowest_free(places: [Place; PLACES]) -> usize
    ensures { result ≡ lowest_free places }
{
    places.iter().position(|p| !p.taken).unwrap_or(PLACES)
}

// The first place with an open report of the kind k that matches r, or the number of places.
pub fn place_of(places: [Place; PLACES], k: Kind, r: Report) -> usize
    ensures { result ≡ place_of k r places }
{
    places
        .iter()
        .position(|&p| holds(p, k, r))
        .unwrap_or(PLACES)
}

// A report of the kind k that matches r is open.
pub fn is_open(places: [Place; PLACES], k: Kind, r: Report) -> bool
    ensures { result ≡ is_open k r places }
{
    places.iter().any(|&p| holds(p, k, r))
}

// All places are taken.
pub fn is_full(places: [Place; PLACES]) -> bool
    ensures { result ≡ is_full places }
{
    places.iter().all(|p| p.taken)
}

// The place at i, and a free one past the last.
pub fn place_at(places: [Place; PLACES], i: usize) -> Place
    ensures { result ≡ get_or places i free_place }
{
    places.get(i).copied().unwrap_or(entry::free_place())
}

// The places with the one at i freed.
pub fn freed(mut places: [Place; PLACES], i: usize) -> [Place; PLACES]
    ensures { result ≡ set places i free_place }
{
    if i < PLACES {
        places[i] = entry::free_place();
    }
    places
}

// One place after a confirmation of the date d.
pub fn lapse(p: Place, d: CalendarDays) -> Place
    ensures { result ≡ lapsed d p }
{
    if p.report.date.0 <= d.0 {
        return entry::free_place();
    }
    p
}

// Every open report with the date d or an older one lapses.
pub fn lapse_all(places: [Place; PLACES], d: CalendarDays) -> [Place; PLACES]
    ensures { result ≡ map (lapsed d) places }
{
    places.map(|p| lapse(p, d))
}

// The report takes the lowest free place; where there is none the places stay.
pub fn keep(mut places: [Place; PLACES], p: Place) -> [Place; PLACES]
    ensures { result ≡ kept_in places p }
{
    let i = lowest_free(places);
    if i < PLACES {
        places[i] = p;
    }
    places
}
