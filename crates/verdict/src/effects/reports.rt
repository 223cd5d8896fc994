// The entry after a report, and the place of the open report that a confirmed one makes a pair with.
ghost use Rattle.std.specs.Prelude.{◌≡◌};
ghost use Rattle.verdict.specs.effects.Reports.{kept, confirmed, report_effect, partner_at};

use crate::verdicts::Doing;
use entries::entry::{Entry, PLACES, Place};
use entries::report::Report;
use fields::kind::Kind;

// The report is kept in the lowest free place.
fn keep(e: Entry, p: Place) -> Entry
    ensures { result ≡ kept e p }
{
    Entry {
        places: entries::places::keep(e.places, p),
        ..e
    }
}

// The holder is the gaining network and the last confirmed date the porting date; every open report with that date or an older one lapses.
fn confirm(e: Entry, r: Report) -> Entry
    ensures { result ≡ confirmed e r }
{
    Entry {
        holder: r.gaining,
        last: Some(r.date),
        places: entries::places::lapse_all(e.places, r.date),
    }
}

// The entry after a report whose verdict does this.
pub fn effect(d: Doing, e: Entry, p: Place) -> Entry
    ensures { result ≡ report_effect d e p }
{
    match d {
        Doing::Keeps => keep(e, p),
        Doing::Confirms => confirm(e, p.report),
        Doing::Lapses | Doing::Nothing => e,
    }
}

// The place of the open report that a confirmed one makes a pair with.
pub fn partner_at(places: [Place; PLACES], r: Report) -> usize
    ensures { result ≡ partner_at r places }
{
    match r.kind {
        Kind::P => {
            if entries::places::is_open(places, Kind::L, r) {
                return entries::places::place_of(places, Kind::L, r);
            }
            entries::places::place_of(places, Kind::Z, r)
        }
        Kind::L => entries::places::place_of(places, Kind::P, r),
        Kind::Z => PLACES,
    }
}
