// A list of keys is sorted, and what a simple second look finds is said of it. The numbers of a line: how many keys are sorted, the first key,
// what is added from key to key, two numbers by which each is divided to keep the rest (0: it is not), and keys that stand in front.
use crate::input;
use order::ROOM;

fn rest(n: u64, m: u64) -> u64 {
    if 0 < m { n % m } else { n }
}

// The key that a line gives for the place `i`, or else `n` by the line's rule.
fn key(numbers: &[u8], i: usize, n: u64) -> u64 {
    if i < 100 && i + 5 <= text::cuts(numbers, b' ') {
        return input::wrapped(numbers, i + 5);
    }
    rest(
        rest(n, input::wrapped(numbers, 3)),
        input::wrapped(numbers, 4),
    )
}

fn fill(keys: &mut [u64], numbers: &[u8]) {
    let step = input::wrapped(numbers, 2);
    let mut n = input::wrapped(numbers, 1);
    for (i, place) in keys.iter_mut().enumerate() {
        *place = key(numbers, i, n);
        n = n.wrapping_add(step);
    }
}

// The first or the second of two words.
fn told(rt: &impl Print, k: usize, first: bool) {
    let words =
        b": in order|: NOT in order|, same sum|, ANOTHER sum|, same bits|, OTHER bits|, others untouched|, others TOUCHED|, rises|, does not rise";
    let at = k % 5 * 2;
    let j = if first { at } else { at + 1 };
    input::say(rt, text::piece(words, b'|', j));
}

// A second look, key by key: whether the first `n` are in order, their sum less what it was, the bits that are set an odd number of times in those
// now and those that were, whether those behind them are as they were.
fn looked(rt: &impl Print, keys: &[u64], was: &[u64], n: usize) {
    let mut ordered = true;
    let mut sum: u64 = 0;
    let mut bits: u64 = 0;
    let mut kept = true;
    let mut last: u64 = 0;
    for (i, (&a, &b)) in keys.iter().zip(was).enumerate() {
        ordered &= n <= i || last <= a;
        sum = sum.wrapping_add(a.wrapping_sub(b));
        bits ^= a ^ b;
        kept &= i < n || a == b;
        last = a;
    }
    told(rt, 0, ordered);
    told(rt, 1, sum == 0);
    told(rt, 2, bits == 0);
    told(rt, 3, kept);
}

// The first seven keys.
fn print_first(rt: &impl Print, keys: &[u64]) {
    for key in keys.iter().take(7) {
        let _ = print!(rt; " {key}");
    }
}

fn show(rt: &impl Print, keys: &[u64; ROOM], was: &[u64; ROOM], n: usize) {
    let _ = print!(rt; "{n}");
    looked(rt, keys, was, n);
    told(rt, 4, order::is_rising(keys, n));
    print_first(rt, keys);
}

pub fn run(rt: &impl Print, numbers: &[u8]) {
    let n = input::wrapped(numbers, 0) as usize;
    let mut keys = [0u64; ROOM];
    fill(&mut keys, numbers);
    let was = keys;
    order::sort(&mut keys, n);
    show(rt, &keys, &was, n);
}
