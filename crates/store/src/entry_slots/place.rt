// A place for an open report, in 12 bytes: kind, date, losing and gaining network, publication day, place in its file.
ghost use Rattle.std.specs.Prelude.{◌≡◌, ◌+◌, ◌*◌, ◌≤◌, length};
ghost use Rattle.laws.specs.Overlay.{overlay, part};
ghost use Rattle.store.specs.entry_slots.Places.{kind_of, place_slot, open_of, place_of, good_open, good_place};

use crate::slots::{run, word};
use calendar::dates::{CalendarDays, LAST_DAY};
use entries::entry::{Place, free_place};
use entries::report::{Report, kind_no};
use fields::code::Code;
use fields::kind::Kind;

// How wide a place is.
pub const WIDTH: usize = 12;

// The kind that a byte stands for: 1 for P, 2 for L, and 3 for Z.
#[tactic(auto, unfolding(crate::specs::entry_slots::Places::kind_of))]
fn kind_of(k: u8) -> Kind
    ensures { result ≡ kind_of k }
{
    match k {
        1 => Kind::P,
        2 => Kind::L,
        _ => Kind::Z,
    }
}

// The open report in the 12 bytes from `at` on.
#[tactic(auto, using(crate::proofs::entry_slots::Places::open_read))]
fn open_at(entries: &[u8], at: usize) -> Place
    requires { at + 12 ≤ length entries.now }
    ensures { result ≡ open_of (part entries.now at 12) }
{
    let report = Report {
        kind: kind_of(entries[at]),
        date: CalendarDays(word::get2(entries, at + 1)),
        losing: Code(word::get2(entries, at + 3)),
        gaining: Code(word::get2(entries, at + 5)),
    };
    Place {
        taken: true,
        report,
        day: CalendarDays(word::get2(entries, at + 7)),
        at: word::get3(entries, at + 9),
    }
}

// The place in the 12 bytes from `at` on.
#[tactic(auto, using(crate::proofs::entry_slots::Places::place_free, crate::proofs::entry_slots::Places::place_open))]
pub(crate) fn place_at(entries: &[u8], at: usize) -> Place
    requires { at + 12 ≤ length entries.now }
    ensures { result ≡ place_of (part entries.now at 12) }
{
    if entries[at] == 0 {
        return free_place();
    }
    open_at(entries, at)
}

// Writes a place into the 12 bytes from `at` on.
#[tactic(auto, using(crate::proofs::entry_slots::Places::kind_small), unfolding(crate::specs::entry_slots::Places::place_slot, laws::specs::Words::low_first))]
pub(crate) fn put_place(entries: &mut [u8], at: usize, p: Place)
    requires { at + 12 ≤ length entries.old }
    ensures { entries.new ≡ overlay entries.old at (place_slot p) }
{
    if !p.taken {
        run::fill(entries, at, WIDTH, 0);
        return;
    }
    let [t0, t1] = p.report.date.0.to_le_bytes();
    let [l0, l1] = p.report.losing.0.to_le_bytes();
    let [g0, g1] = p.report.gaining.0.to_le_bytes();
    let [d0, d1] = p.day.0.to_le_bytes();
    let [a0, a1, a2, _] = p.at.to_le_bytes();
    let kind = 1 + kind_no(p.report.kind);
    let slot = [kind, t0, t1, l0, l1, g0, g1, d0, d1, a0, a1, a2];
    run::write(entries, at, &slot);
}

// Whether an open report is in range.
#[tactic(auto, unfolding(crate::specs::entry_slots::Places::good_open))]
fn good_open(p: Place) -> bool
    ensures { result ≡ good_open p }
{
    p.report.date.0 <= LAST_DAY
        && p.report.losing.0 <= Code::HIGHEST.0
        && p.report.gaining.0 <= Code::HIGHEST.0
        && p.day.0 <= LAST_DAY
}

// Whether the 12 bytes from `at` on are a free place, all zeros, or an open report in range.
#[tactic(auto, using(crate::proofs::entry_slots::Places::good_free, crate::proofs::entry_slots::Places::good_beyond, crate::proofs::entry_slots::Places::good_taken))]
pub(crate) fn good_place(entries: &[u8], at: usize) -> bool
    requires { at + 12 ≤ length entries.now }
    ensures { result ≡ good_place (part entries.now at 12) }
{
    match entries[at] {
        0 => run::zeros(&entries[at..at + WIDTH]),
        1..=3 => good_open(open_at(entries, at)),
        _ => false,
    }
}
