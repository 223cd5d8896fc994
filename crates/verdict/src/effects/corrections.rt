// The entry after an objection.
ghost use Rattle.std.specs.Prelude.{◌≡◌};
ghost use Rattle.verdict.specs.effects.Corrections.{named_at, without_named, objection_effect};

use crate::verdicts::Doing;
use entries::entry::{Entry, PLACES, Place};
use entries::report;
use entries::report::Published;
use fields::code::Code;

// The place at which the named report is open, or the number of places.
fn named_at(owner: Code, named: Published, places: [Place; PLACES]) -> usize
    ensures { result ≡ named_at owner named places }
{
    entries::places::place_of(places, named.kind, report::meant(owner, named))
}

// The named report lapses.
fn without_named(e: Entry, owner: Code, named: Published) -> Entry
    ensures { result ≡ without_named e owner named }
{
    Entry {
        places: entries::places::freed(e.places, named_at(owner, named, e.places)),
        ..e
    }
}

// The entry after an objection whose verdict does this.
pub fn effect(d: Doing, e: Entry, owner: Code, named: Published) -> Entry
    ensures { result ≡ objection_effect d e owner named }
{
    match d {
        Doing::Lapses => without_named(e, owner, named),
        Doing::Keeps | Doing::Confirms | Doing::Nothing => e,
    }
}
