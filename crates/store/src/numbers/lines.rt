// The lines of the number table: a count in two bytes, then for each number its two fields in five bytes each, its owner and its
// set-up day in two.
ghost use Rattle.std.specs.Prelude.{◌≡◌, ◌+◌, ◌*◌, ◌≤◌, ◌<◌, length};
ghost use Rattle.std.specs.List.{list_all, range_with_len};
ghost use Rattle.laws.specs.Overlay.{overlay};
ghost use Rattle.laws.specs.Words.{low_first};
ghost use Rattle.store.specs.numbers.Lines.{line_slot, line_at, line_count, good_line};

use crate::slots::{run, word};
use calendar::dates::{CalendarDays, in_calendar};
use fields::code::Code;
use fields::number::{Digits, Number};

// How many numbers the table takes.
pub const NUMBERS: usize = 1024;

// How wide the count and a line are, and how long the buffer has to be.
pub const HEAD: usize = 2;

pub const LINE: usize = 14;

pub const TABLE_LENGTH: usize = HEAD + NUMBERS * LINE;

// A line of the number table.
#[derive(Drop)]
pub struct Line {
    pub number: Number,
    pub owner: Code,
    pub setup: CalendarDays,
}

// How many lines there are.
#[tactic(auto, unfolding(crate::specs::numbers::Lines::line_count))]
pub fn line_count(lines: &[u8]) -> usize
    requires { 2 ≤ length lines.now }
    ensures { (result ≡ line_count lines.now) × (result < 65536) }
{
    usize::from(word::get2(lines, 0))
}

// The line in the slot k.
#[tactic(auto, using(crate::proofs::numbers::Reading::line_read))]
pub fn line_at(lines: &[u8], k: usize) -> Line
    requires { 2 + k * 14 + 14 ≤ length lines.now }
    ensures { result ≡ line_at lines.now k }
{
    let at = HEAD + k * LINE;
    let number = Number {
        first: Digits(word::get5(lines, at)),
        last: Digits(word::get5(lines, at + 5)),
    };
    Line {
        number,
        owner: Code(word::get2(lines, at + 10)),
        setup: CalendarDays(word::get2(lines, at + 12)),
    }
}

// Writes a line into the slot k.
#[tactic(auto, unfolding(crate::specs::numbers::Lines::line_slot, laws::specs::Words::low_first))]
pub fn put_line(lines: &mut [u8], k: usize, l: Line)
    requires { 2 + k * 14 + 14 ≤ length lines.old }
    ensures { lines.new ≡ overlay lines.old (2 + k * 14) (line_slot l) }
{
    let [f0, f1, f2, f3, f4, _, _, _] = l.number.first.0.to_le_bytes();
    let [l0, l1, l2, l3, l4, _, _, _] = l.number.last.0.to_le_bytes();
    let [o0, o1] = l.owner.0.to_le_bytes();
    let [s0, s1] = l.setup.0.to_le_bytes();
    let slot = [f0, f1, f2, f3, f4, l0, l1, l2, l3, l4, o0, o1, s0, s1];
    run::write(lines, HEAD + k * LINE, &slot);
}

// Says that there are n lines.
pub fn put_count(lines: &mut [u8], n: u16)
    requires { 2 ≤ length lines.old }
    ensures { lines.new ≡ overlay lines.old 0 (low_first 2 n) }
{
    word::put2(lines, 0, n);
}

// Whether a line is well formed.
#[tactic(auto, unfolding(crate::specs::numbers::Lines::good_line))]
pub fn good_line(l: Line) -> bool
    ensures { result ≡ good_line l }
{
    l.number.fits() && !l.number.first.is_empty() && l.owner.fits() && in_calendar(l.setup)
}

// Whether each of the first n lines is.
pub(crate) fn good_lines(lines: &[u8], n: usize) -> bool
    requires { 2 + n * 14 ≤ length lines.now }
    ensures { result ≡ list_all (λ i. good_line (line_at lines.now i)) (range_with_len 0 n) }
{
    (0..n).all(|i| good_line(line_at(lines, i)))
}
