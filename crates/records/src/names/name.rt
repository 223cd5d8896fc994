// A file's name: `1`, the kind's letter, yymmdd, `.txt`.
ghost use Rattle.std.specs.Prelude.{◌≡◌, ◌≤◌, length};
ghost use Rattle.laws.specs.Overlay.{overlay};
ghost use Rattle.records.specs.names.Name.{framed, day_of_six, name_of, six_of, spelling, name_text, name_answer};
ghost use Rattle.records.specs.names.Written.{Wrote};

use crate::closing::put_all;
use crate::names::kind::FileKind;
use crate::names::written::NotWritten;
use calendar::dates::{CalendarDays, Date};

#[derive(Clone, Copy)]
pub struct Name {
    pub kind: FileKind,
    pub day: CalendarDays,
}

// Whether `1` and `.txt` stand where they should.
#[tactic(auto, using(crate::proofs::names::NameLaws::frames))]
fn is_framed(s: &[u8]) -> bool
    ensures { result ≡ framed s.now }
{
    if s.len() != 12 {
        return false;
    }
    s.starts_with(b"1") && s.ends_with(b".txt")
}

// The day that yymmdd, as one number, names.
#[tactic(auto, using(crate::proofs::names::NameLaws::long_days), unfolding(crate::specs::names::Name::day_of_six))]
fn day_of_six(n: u64) -> Option<CalendarDays>
    ensures { result ≡ day_of_six n }
{
    if 999999 < n {
        return None;
    }
    calendar::dates::day_of(Date {
        year: calendar::dates::full_year((n / 10000) as u8)?,
        month: (n / 100 % 100) as u8,
        day: (n % 100) as u8,
    })
}

// yymmdd of a date, as one number.
#[tactic(auto, unfolding(crate::specs::names::Name::six_of))]
fn six(x: Date) -> u64
    ensures { result ≡ six_of x }
{
    u64::from(x.year) % 100 * 10000 + u64::from(x.month) * 100 + u64::from(x.day)
}

// The twelve bytes of a name.
#[tactic(auto, using(crate::proofs::names::NameLaws::laid_names))]
fn put(out: &mut [u8], letter: u8, n: u64)
    requires { 12 ≤ length out.old }
    ensures { out.new ≡ overlay out.old 0 (spelling letter n) }
{
    let kind = text::put_byte(out, 0, b'1');
    let day = text::put_byte(out, kind, letter);
    let ending = text::put_digits(out, day, 6, n);
    put_all(out, ending, b".txt");
}

impl Name {
    #[tactic(auto, using(crate::proofs::names::NameLaws::frames), unfolding(crate::specs::names::Name::name_of))]
    pub fn read(s: &[u8]) -> Option<Name>
        ensures { result ≡ name_of s.now }
    {
        if !is_framed(s) {
            return None;
        }
        Some(Name {
            kind: FileKind::of_letter(s[1])?,
            day: day_of_six(text::read_digits(&s[2..8], false)?)?,
        })
    }

    // The name into a lent buffer; 4 where its day is past the calendar's end.
    #[tactic(auto, using(crate::proofs::names::NameLaws::writes))]
    pub fn write(self, out: &mut [u8]) -> Result<usize, NotWritten>
        ensures { Wrote (name_answer self (length out.old)) (name_text self) out.old out.new result }
    {
        let Some(date) = calendar::dates::date_of(self.day) else {
            return Err(NotWritten::Fault(0));
        };
        if out.len() < 12 {
            return Err(NotWritten::Long);
        }
        put(out, self.kind.letter(), six(date));
        Ok(12)
    }
}
