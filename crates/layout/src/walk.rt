// The fields of a line read one after the other, each from behind the comma that ends the one before it.
ghost use Rattle.std.specs.Prelude.{◌≡◌, drop};
ghost use Rattle.fields.specs.Field.{maybe_of};
ghost use Rattle.fields.specs.Number.{digits_field_of, number_of};
ghost use Rattle.layout.specs.Walk.{reach_of, found_at};

use crate::field::Fixed;
use fields::number::{Digits, Number};

// How far a field of digits and its comma reach at most: 12 bytes, and not beyond the line.
#[tactic(auto, using(std::proofs::lemmas::Bool::Decides::nat_tests), unfolding(crate::specs::Walk::reach_of))]
fn reach(s: &[u8], at: usize) -> usize
    ensures { result ≡ reach_of s.now at }
{
    s.len().min(at.saturating_add(12))
}

// What the digits are worth is known as they are passed.
pub(crate) fn digits_at(s: &[u8], at: usize) -> Option<(Digits, usize)>
    ensures { result ≡ found_at digits_field_of s.now at }
{
    let mut n: u64 = 1;
    for i in at..reach(s, at) {
        let b = s[i];
        if b < b'0' {
            if b != b',' {
                return None;
            }
            return Some((Digits(n), i + 1));
        }
        if b'9' < b {
            return None;
        }
        n = n * 10 + u64::from(b - b'0');
    }
    None
}

#[tactic(auto, using(crate::proofs::DigitsWalk::second_ones))]
pub(crate) fn number_at(first: Digits, s: &[u8], at: usize) -> Option<(Number, usize)>
    ensures { result ≡ found_at (number_of first) s.now at }
{
    if s.len() <= at {
        return None;
    }
    if s[at] == b',' {
        let number = Number {
            first,
            last: Digits::EMPTY,
        };
        return Some((number, at + 1));
    }
    let end = text::field_end(s, at, b',');
    if s.len() <= end {
        return None;
    }
    Some((Number::read(first, &s[at..end])?, end + 1))
}

// A field of one width, or an empty one.
pub(crate) fn field_at<T: Fixed>(s: &[u8], at: usize) -> Option<(Option<T>, usize)>
    ensures { result ≡ found_at (maybe_of T.of) s.now at }
{
    if s.len() <= at {
        return None;
    }
    if s[at] == b',' {
        return Some((None, at + 1));
    }
    let width = T::WIDTH;
    if s.len() - at <= width {
        return None;
    }
    let end = at + width;
    if s[end] != b',' {
        return None;
    }
    Some((Some(T::read(&s[at..end])?), end + 1))
}

// All that is left is the last field, which no comma follows.
#[tactic(auto, using(crate::proofs::WidthLaws::last_ones), unfolding(fields::specs::Field::maybe_from))]
pub(crate) fn last_at<T: Fixed>(s: &[u8], at: usize) -> Option<Option<T>>
    ensures { result ≡ maybe_of T.of (drop at s.now) }
{
    if s.len() <= at {
        return Some(None);
    }
    Some(Some(T::read(&s[at..])?))
}
