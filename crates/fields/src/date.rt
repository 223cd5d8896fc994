// A date: ddmmyyyy, a day of the calendar.
ghost use Rattle.std.specs.Prelude.{◌≡◌, true, ◌+◌, ◌≤◌, length};
ghost use Rattle.laws.specs.Overlay.{Laid};
ghost use Rattle.calendar.specs.Answers.{date_of};
ghost use Rattle.fields.specs.Date.{date_field_of, date_of_word, spelling, date_fits, date_text};

use calendar::dates::{CalendarDays, Date};

#[tactic(auto, using(std::proofs::lemmas::Bool::Decides::nat_tests), unfolding(crate::specs::Date::date_field_of, crate::specs::Date::date_from, crate::specs::Date::date_found))]
pub fn read(f: &[u8]) -> Option<CalendarDays>
    ensures { result ≡ date_field_of f.now }
{
    if f.len() != 8 {
        return None;
    }
    let n = text::read_digits(f, false)?;
    calendar::dates::day_of(Date {
        year: (n % 10000) as u16,
        month: (n / 10000 % 100) as u8,
        day: (n / 1000000) as u8,
    })
}

// From a plain word: the number of a day of the calendar. An Option, as `read` answers: a TryFrom would need an error with nothing to say.
#[tactic(auto, using(std::proofs::lemmas::Bool::Decides::nat_tests), unfolding(crate::specs::Date::date_of_word))]
pub fn of_word(w: u64) -> Option<CalendarDays>
    ensures { result ≡ date_of_word w }
{
    if 18992 < w {
        return None;
    }
    Some(CalendarDays(w as u16))
}

// ddmmyyyy as one number.
#[tactic(auto, unfolding(crate::specs::Date::spelling))]
fn spell(d: CalendarDays) -> u64
    ensures { result ≡ spelling (date_of d.0) }
{
    match calendar::dates::date_of(d) {
        Some(x) => u64::from(x.day) * 1000000 + u64::from(x.month) * 10000 + u64::from(x.year),
        None => 0,
    }
}

#[tactic(auto, using(laws::proofs::Digits::length_digits))]
pub fn write(d: CalendarDays, out: &mut [u8], at: usize) -> usize
    requires { (at + length (date_text d) ≤ length out.old) × (date_fits d ≡ true) }
    ensures { Laid out.old at (date_text d) out.new result }
{
    text::put_digits(out, at, 8, spell(d))
}
