// A record's bytes in a slot: their number, the bytes, zeros behind.
ghost use Rattle.std.specs.Prelude.{◌≡◌, ◌+◌, ◌*◌, ◌≤◌, ◌<◌, length};
ghost use Rattle.laws.specs.Overlay.{overlay};
ghost use Rattle.laws.specs.Slots.{slot_at, slot_of, held_in, is_held};

use crate::slots::run;

// Writes a record into the slot k of a journal.
#[tactic(auto, using(crate::proofs::slots::Held::written))]
pub fn put(journal: &mut [u8], width: usize, k: usize, bytes: &[u8])
    requires width_in_bounds { k * width + width ≤ length journal.old }
    requires bytes_len_bound { (length bytes.now < width) × (width ≤ 256) }
    ensures { journal.new ≡ overlay journal.old (k * width) (slot_of width bytes.now) }
{
    let at = k * width;
    let n = bytes.len();
    journal[at] = n as u8;
    run::write(journal, at + 1, bytes);
    run::fill(journal, at + 1 + n, width - 1 - n, 0);
}

// The bytes of the record in the slot k, a part of the journal.
#[tactic(auto, using(crate::proofs::slots::Held::held_as_said, crate::proofs::slots::Held::held_all))]
pub fn bytes(journal: &[u8], width: usize, k: usize) -> &[u8]
    requires { (k * width + width ≤ length journal.now) × (0 < width) }
    ensures { result.now ≡ held_in (slot_at 0 width journal.now k) }
{
    let at = k * width;
    let n = usize::from(journal[at]);
    let from = at + 1;
    let to = if n < width { from + n } else { at + width };
    &journal[from..to]
}

// Whether the slot k holds as many bytes as its first byte says, and zeros behind them.
#[tactic(auto, using(crate::proofs::slots::Held::held_beyond, crate::proofs::slots::Held::held_zeros))]
pub(crate) fn is_held(journal: &[u8], width: usize, k: usize) -> bool
    requires { (k * width + width ≤ length journal.now) × (0 < width) }
    ensures { result ≡ is_held width (slot_at 0 width journal.now k) }
{
    let at = k * width;
    let n = usize::from(journal[at]);
    n < width && run::zeros(&journal[at + 1 + n..at + width])
}
