// Numbers: num1, or num1-num2.
ghost use Rattle.std.specs.Prelude.{◌≡◌};
ghost use Rattle.fields.specs.Number.{digits_field_of};
ghost use Rattle.shown.specs.Named.{beside_first, number_named};

use crate::Shown;
use fields::number::{Digits, Number};
use std::fmt;
use std::fmt::{Display, Formatter, Write};

// The digits behind the leading 1.
impl Display for Shown<Digits> {
    fn fmt<W: Write>(&self, f: &mut Formatter<W>) -> fmt::Result {
        let mut spelt = [0u8; 20];
        let k = io::decimal(self.0.0, &mut spelt);
        for &digit in spelt[..k].iter().skip(1) {
            f.write_char(char::from(digit))?;
        }
        Ok(())
    }
}

impl Display for Shown<Number> {
    fn fmt<W: Write>(&self, f: &mut Formatter<W>) -> fmt::Result {
        let Number { first, last } = self.0;
        write!(f, "{}", Shown(first))?;
        if last.is_empty() {
            return Ok(());
        }
        write!(f, "-{}", Shown(last))
    }
}

// Two fields as a number; a first field of no digits is none.
fn of_fields(first: &[u8], last: &[u8]) -> Option<Number>
    ensures { result ≡ beside_first (digits_field_of first.now) last.now }
{
    let d = Digits::read(first)?;
    if d.is_empty() {
        return None;
    }
    Number::read(d, last)
}

// The number that a word of the command line names.
#[tactic(auto, unfolding(crate::specs::Named::named_at))]
pub fn read(word: &[u8]) -> Option<Number>
    ensures { result ≡ number_named word.now }
{
    let end = text::field_end(word, 0, b'-');
    if word.len() <= end {
        return of_fields(word, &[]);
    }
    let last = &word[end + 1..];
    if last.is_empty() {
        return None;
    }
    of_fields(&word[..end], last)
}
