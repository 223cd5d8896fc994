// An entry in 100 bytes: the holder, the last confirmed porting date, and eight places.
ghost use Rattle.std.specs.Prelude.{◌≡◌, ◌+◌, ◌*◌, ◌≤◌, ◌<◌, length};
ghost use mathlib.Core.List.{flat_map};
ghost use Rattle.std.specs.List.{list_all, range_with_len};
ghost use Rattle.laws.specs.Lists.{table, all};
ghost use Rattle.laws.specs.Overlay.{overlay, part};
ghost use Rattle.laws.specs.Slots.{slot_at};
ghost use Rattle.store.specs.entry_slots.Places.{place_slot, place_of, good_place};
ghost use Rattle.store.specs.entry_slots.Entries.{last_no, last_of, places_of, entry_slot, entry_at, good_entry};

use crate::entry_slots::place;
use crate::slots::{run, word};
use calendar::dates::{CalendarDays, LAST_DAY};
use entries::entry::{Entry, PLACES, Place, free_place};
use fields::code::Code;

// How wide the holder and the last confirmed date are together, and an entry.
pub const HEAD: usize = 4;

pub const WIDTH: usize = HEAD + PLACES * place::WIDTH;

// A last confirmed date as a number: 0 for none, else one more than its day.
#[tactic(auto, unfolding(crate::specs::entry_slots::Entries::last_no))]
fn last_no(last: Option<CalendarDays>) -> u32
    ensures { (result ≡ last_no last) × (result < 65537) }
{
    last.map_or(0, |d| u32::from(d.0) + 1)
}

// And the date for a number.
#[tactic(auto, unfolding(crate::specs::entry_slots::Entries::last_of))]
fn last_of(n: u16) -> Option<CalendarDays>
    ensures { result ≡ last_of n }
{
    n.checked_sub(1).map(CalendarDays)
}

// The eight places from `at` on.
fn places_at(entries: &[u8], at: usize) -> [Place; PLACES]
    requires { at + 96 ≤ length entries.now }
    ensures { result ≡ places_of (part entries.now at 96) }
{
    let mut places = [free_place(); PLACES];
    for i in 0..PLACES {
        places[i] = place::place_at(entries, at + i * place::WIDTH);
    }
    places
}

// The entry in the slot k.
#[tactic(auto, using(crate::proofs::entry_slots::Entries::entry_read))]
pub fn entry_at(entries: &[u8], k: usize) -> Entry
    requires { k * 100 + 100 ≤ length entries.now }
    ensures { result ≡ entry_at entries.now k }
{
    let at = k * WIDTH;
    Entry {
        holder: Code(word::get2(entries, at)),
        last: last_of(word::get2(entries, at + 2)),
        places: places_at(entries, at + HEAD),
    }
}

// Writes eight places from `at` on.
fn put_places(entries: &mut [u8], at: usize, places: [Place; PLACES])
    requires { at + 96 ≤ length entries.old }
    ensures { entries.new ≡ overlay entries.old at (flat_map place_slot places) }
{
    for i in 0..PLACES {
        place::put_place(entries, at + i * place::WIDTH, places[i]);
    }
}

// Writes an entry into the slot k.
#[tactic(auto, using(crate::proofs::entry_slots::Entries::entry_written), unfolding(laws::specs::Words::low_first))]
pub fn put_entry(entries: &mut [u8], k: usize, e: Entry)
    requires { k * 100 + 100 ≤ length entries.old }
    ensures { entries.new ≡ overlay entries.old (k * 100) (entry_slot e) }
{
    let at = k * WIDTH;
    let [h0, h1] = e.holder.0.to_le_bytes();
    let [l0, l1, _, _] = last_no(e.last).to_le_bytes();
    run::write(entries, at, &[h0, h1, l0, l1]);
    put_places(entries, at + HEAD, e.places);
}

// Whether the eight places from `at` on are in range.
fn good_places(entries: &[u8], at: usize) -> bool
    requires { at + 96 ≤ length entries.now }
    ensures { result ≡ list_all (λ i. good_place (part entries.now (at + i * 12) 12)) (range_with_len 0 8) }
{
    (0..PLACES).all(|i| place::good_place(entries, at + i * place::WIDTH))
}

// Whether the entry in the slot k is in range.
#[tactic(auto, using(crate::proofs::entry_slots::Entries::holder_beyond, crate::proofs::entry_slots::Entries::date_beyond, crate::proofs::entry_slots::Entries::entry_good))]
fn good_entry(entries: &[u8], k: usize) -> bool
    requires { k * 100 + 100 ≤ length entries.now }
    ensures { result ≡ good_entry (slot_at 0 100 entries.now k) }
{
    let at = k * WIDTH;
    word::get2(entries, at) <= Code::HIGHEST.0
        && word::get2(entries, at + 2) <= LAST_DAY + 1
        && good_places(entries, at + HEAD)
}

// Whether each of the first n entries is.
pub(crate) fn good_entries(entries: &[u8], n: usize) -> bool
    requires { n * 100 ≤ length entries.now }
    ensures { result ≡ list_all (λ i. good_entry (slot_at 0 100 entries.now i)) (range_with_len 0 n) }
{
    (0..n).all(|i| good_entry(entries, i))
}
