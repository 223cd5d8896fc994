// Numbers in two, three and five bytes of a buffer, the lowest byte first.
ghost use Rattle.std.specs.Prelude.{◌≡◌, ◌+◌, ◌≤◌, ◌<◌, length};
ghost use Rattle.laws.specs.Overlay.{overlay};
ghost use Rattle.laws.specs.Words.{word_at, low_first};

use crate::slots::run;

// The number in the two bytes from `at` on.
#[tactic(auto, using(crate::proofs::slots::Widths::word_two))]
pub(crate) fn get2(s: &[u8], at: usize) -> u16
    requires { at + 2 ≤ length s.now }
    ensures { result ≡ word_at 2 s.now at }
{
    u16::from_le_bytes([s[at], s[at + 1]])
}

// The number in the three bytes from `at` on.
#[tactic(auto, using(crate::proofs::slots::Widths::word_three))]
pub(crate) fn get3(s: &[u8], at: usize) -> u32
    requires { at + 3 ≤ length s.now }
    ensures { (result ≡ word_at 3 s.now at) × (result < 16777216) }
{
    u32::from_le_bytes([s[at], s[at + 1], s[at + 2], 0])
}

// The number in the five bytes from `at` on.
#[tactic(auto, using(crate::proofs::slots::Widths::word_five))]
pub(crate) fn get5(s: &[u8], at: usize) -> u64
    requires { at + 5 ≤ length s.now }
    ensures { (result ≡ word_at 5 s.now at) × (result < 1099511627776) }
{
    let low = u64::from(get2(s, at));
    let high = u64::from(get3(s, at + 2));
    low + 65536 * high
}

// Writes a number into the two bytes from `at` on.
#[tactic(auto, unfolding(laws::specs::Words::low_first))]
pub(crate) fn put2(s: &mut [u8], at: usize, v: u16)
    requires { at + 2 ≤ length s.old }
    ensures { s.new ≡ overlay s.old at (low_first 2 v) }
{
    run::write(s, at, &v.to_le_bytes());
}
