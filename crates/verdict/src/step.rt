// One record of a number's history: its verdict, the entry after it, and the pair that confirmed last.
ghost use Rattle.std.specs.Prelude.{◌≡◌};
ghost use Rattle.verdict.specs.Step.{placed_as, verdict_on, effect_on, step_on, paired_in, pair_after, why_by, stand_on, first_standing};

use crate::correction_rules::Objection;
use crate::verdicts;
use crate::verdicts::{Doing, Verdict};
use calendar::dates::CalendarDays;
use entries::entry::{Entry, Line, PLACES, Place};
use entries::report::{Published, Report};
use entries::{entry, report};
use fields::code::Code;

// What a record says: a report, an objection, or any other correction.
#[derive(Clone, Copy, PartialEq, Eq)]
pub enum Says {
    Reported(Published),
    Objected(Objection),
    Other,
}

// A record that names the number: its publisher, its publication day, its place in its file, and what it says.
#[derive(Clone, Copy, PartialEq, Eq)]
pub struct Record {
    pub publisher: Code,
    pub day: CalendarDays,
    pub at: u32,
    pub says: Says,
}

// What a record comes to: its verdict and the next entry.
#[derive(Clone, Copy, PartialEq, Eq)]
pub struct Outcome {
    pub verdict: Verdict,
    pub entry: Entry,
}

// Why the holder is who it is: the two reports that confirmed last, the one processed first coming first, or nothing yet.
#[derive(Clone, Copy, PartialEq, Eq)]
pub enum Why {
    Nothing,
    Pair(Place, Place),
}

// Where a number stands: its entry, and why.
#[derive(Clone, Copy, PartialEq, Eq)]
pub struct Standing {
    pub entry: Entry,
    pub why: Why,
}

// The report with the publication day and the place of its record.
fn placed(rec: Record, r: Report) -> Place
    ensures { result ≡ placed_as rec r }
{
    Place {
        taken: true,
        report: r,
        day: rec.day,
        at: rec.at,
    }
}

// The verdict on a record.
pub fn verdict(n: Option<Line>, e: Entry, rec: Record) -> Verdict
    ensures { result ≡ verdict_on n e rec }
{
    match rec.says {
        Says::Reported(p) => {
            let line = entry::line_in(n);
            let r = report::meant(line.owner, p);
            crate::report_rules::verdict(n, e, rec.publisher, rec.day, r)
        }
        Says::Objected(o) => crate::correction_rules::verdict(n, e, rec.publisher, o),
        Says::Other => crate::correction_rules::other(n),
    }
}

// The entry after a record whose verdict does this.
pub fn effect(d: Doing, line: Line, e: Entry, rec: Record) -> Entry
    ensures { result ≡ effect_on d line e rec }
{
    match rec.says {
        Says::Reported(p) => {
            let r = report::meant(line.owner, p);
            crate::effects::reports::effect(d, e, placed(rec, r))
        }
        Says::Objected(o) => crate::effects::corrections::effect(d, e, line.owner, o.named),
        Says::Other => e,
    }
}

// The verdict on a record, and the next entry.
pub fn step(line: Line, e: Entry, rec: Record) -> Outcome
    ensures { result ≡ step_on line e rec }
{
    let v = verdict(Some(line), e, rec);
    Outcome {
        verdict: v,
        entry: effect(verdicts::does(v), line, e, rec),
    }
}

// The pair that a confirmed report makes with the open one that it matches.
fn paired(places: [Place; PLACES], second: Place) -> Why
    ensures { result ≡ paired_in places second }
{
    let first = entries::places::place_at(
        places,
        crate::effects::reports::partner_at(places, second.report),
    );
    Why::Pair(first, second)
}

// The pair after a report whose verdict does this.
fn pair_after(d: Doing, places: [Place; PLACES], second: Place, before: Why) -> Why
    ensures { result ≡ pair_after d places second before }
{
    match d {
        Doing::Confirms => paired(places, second),
        Doing::Keeps | Doing::Lapses | Doing::Nothing => before,
    }
}

// Why, after a record whose verdict, on the places before it, does this.
pub fn why_after(d: Doing, owner: Code, places: [Place; PLACES], before: Why, rec: Record) -> Why
    ensures { result ≡ why_by d owner places before rec rec.says }
{
    match rec.says {
        Says::Reported(p) => {
            let r = report::meant(owner, p);
            pair_after(d, places, placed(rec, r), before)
        }
        Says::Objected(_) | Says::Other => before,
    }
}

// Where a number stands at first.
pub fn first(line: Line) -> Standing
    ensures { result ≡ first_standing line }
{
    Standing {
        entry: entry::first(line),
        why: Why::Nothing,
    }
}

// Where a number stands after a record.
pub fn stand(line: Line, s: Standing, rec: Record) -> Standing
    ensures { result ≡ stand_on line s rec }
{
    let places = s.entry.places;
    let o = step(line, s.entry, rec);
    let why = why_after(verdicts::does(o.verdict), line.owner, places, s.why, rec);
    Standing {
        entry: o.entry,
        why,
    }
}
