// Whether a number stands in the table twice. Sorted keys that rise say that none does; where they do not, the numbers
// themselves are compared: that is the way of a table that has a number twice, and of two numbers that share a key.
ghost use Rattle.std.specs.Prelude.{◌≡◌, ◌+◌, ◌*◌, ◌≤◌, length, take, drop};
ghost use Rattle.laws.specs.Lists.{table, any, none_twice};
ghost use Rattle.laws.specs.Order.{sorted, rising};
ghost use Rattle.fields.specs.Number.{same_number};
ghost use Rattle.store.specs.numbers.Lines.{number_at};
ghost use Rattle.store.specs.numbers.Twice.{key_of, keys_of};

use crate::numbers::lines;
use crate::slots::keys;
use fields::number::Number;

// A number for a number's two fields.
#[tactic(auto, unfolding(crate::specs::numbers::Twice::key_of))]
fn key_of(n: Number) -> u64
    ensures { result ≡ key_of n }
{
    n.first.0 % 274877906944 * 67108864 + n.last.0 % 67108864
}

// Lays the keys of the first n lines into `numbers`.
#[tactic(auto, using(crate::proofs::numbers::Keys::keys_none, crate::proofs::numbers::Keys::keys_next))]
fn gather(lines: &[u8], n: usize, numbers: &mut [u64])
    requires { (2 + n * 14 ≤ length lines.now) × (n ≤ length numbers.old) }
    ensures { take n numbers.new ≡ keys_of n lines.now }
{
    for i in 0..n {
        numbers[i] = key_of(lines::line_at(lines, i).number);
    }
}

// Whether the sorted keys rise.
fn keys_rise(lines: &[u8], n: usize) -> bool
    requires { (2 + n * 14 ≤ length lines.now) × (n ≤ 1024) }
    ensures { result ≡ rising (sorted (keys_of n lines.now)) }
{
    let mut numbers = [0u64; 10240];
    gather(lines, n, &mut numbers);
    keys::rise(&mut numbers, n)
}

// Whether the number x stands in one of the lines from `from` on.
#[tactic(auto, using(crate::proofs::numbers::Keys::behind_on, crate::proofs::numbers::Keys::behind_here, crate::proofs::numbers::Keys::behind_none, crate::proofs::numbers::Keys::number_read))]
fn has_behind(lines: &[u8], n: usize, from: usize, x: Number) -> bool
    requires { 2 + n * 14 ≤ length lines.now }
    ensures { result ≡ any (same_number x) (drop from (table n (number_at lines.now))) }
{
    for i in from..n {
        if Number::same(x, lines::line_at(lines, i).number) {
            return true;
        }
    }
    false
}

// Whether no number stands behind itself, each compared with each.
#[tactic(auto, using(crate::proofs::numbers::Keys::each_on, crate::proofs::numbers::Keys::each_here, crate::proofs::numbers::Keys::each_passed, crate::proofs::numbers::Keys::number_read))]
fn each_once(lines: &[u8], n: usize) -> bool
    requires { 2 + n * 14 ≤ length lines.now }
    ensures { result ≡ none_twice same_number (table n (number_at lines.now)) }
{
    for i in 0..n {
        if has_behind(lines, n, i + 1, lines::line_at(lines, i).number) {
            return false;
        }
    }
    true
}

// Whether no number stands in the first n lines twice.
#[tactic(auto, using(crate::proofs::numbers::Keys::numbers_once))]
pub fn no_number_twice(lines: &[u8], n: usize) -> bool
    requires { (2 + n * 14 ≤ length lines.now) × (n ≤ 1024) }
    ensures { result ≡ none_twice same_number (table n (number_at lines.now)) }
{
    keys_rise(lines, n) || each_once(lines, n)
}
