// What stands in a field, whatever kind of field it is: its reader and its writer, which undo each other. A field that may be empty is an `Option`.
ghost use Rattle.std.specs.Prelude.{◌≡◌, true, Option, Some, ℕ, Bool, List, ◌+◌, ◌≤◌, length};
ghost use Rattle.laws.specs.Overlay.{Laid};
ghost use Rattle.fields.specs.Code.{code_of, code_fits, code_of_word, code_text};
ghost use Rattle.fields.specs.Date.{date_field_of, date_fits, date_of_word, date_text};
ghost use Rattle.fields.specs.Field.{Trips, IsFixed, maybe_of, maybe_fits, maybe_of_word, maybe_text};
ghost use Rattle.fields.specs.Kind.{kind_of, kind_fits, kind_of_word, kind_text};
ghost use Rattle.fields.specs.Number.{digits_field_of, digits_fits, digits_text};
ghost use Rattle.fields.proofs.CodeLaws.{codes, code-fixed};
ghost use Rattle.fields.proofs.DateLaws.{dates, date-fixed};
ghost use Rattle.fields.proofs.FieldLaws.{maybe_trips};
ghost use Rattle.fields.proofs.KindLaws.{kinds, kind-fixed};
ghost use Rattle.fields.proofs.NumberLaws.{digits-trips};
ghost use Rattle.fields.proofs.WordLaws.{code-word, date-word, kind-word};

use calendar::dates::CalendarDays;
use fields::code::Code;
use fields::date;
use fields::kind::Kind;
use fields::number::Digits;

pub trait Field: Copy {
    // What bytes are read as.
    ghost of: { List ℕ → Option Self };

    // Which values the field can hold.
    ghost fits: { Self → Bool };

    // How they are written.
    ghost text: { Self → List ℕ };

    fn read(f: &[u8]) -> Option<Self>
        ensures { result ≡ of f.now };

    // How many bytes it has.
    fn len(self) -> usize
        ensures { result ≡ length (text self) };

    // Into its field, which can hold it; what follows it is the answer.
    fn write(self, out: &mut [u8], at: usize) -> usize
        requires { (at + length (text self) ≤ length out.old) × (fits self ≡ true) }
        ensures { Laid out.old at (text self) out.new result };

    ghost trips: { Trips of fits text };
}

impl Field for Digits {
    ghost of = { digits_field_of };

    ghost fits = { digits_fits };

    ghost text = { digits_text };

    ghost trips = { digits-trips };

    fn read(f: &[u8]) -> Option<Digits> {
        Digits::read(f)
    }

    #[tactic(auto, using(laws::proofs::Digits::length_digits))]
    fn len(self) -> usize {
        Digits::len(self)
    }

    fn write(self, out: &mut [u8], at: usize) -> usize {
        Digits::write(self, out, at)
    }
}

impl Field for Code {
    ghost of = { code_of };

    ghost fits = { code_fits };

    ghost text = { code_text };

    ghost trips = { codes };

    fn read(f: &[u8]) -> Option<Code> {
        Code::read(f)
    }

    #[tactic(auto, using(laws::proofs::Digits::length_digits))]
    fn len(self) -> usize {
        Code::WIDTH
    }

    fn write(self, out: &mut [u8], at: usize) -> usize {
        Code::write(self, out, at)
    }
}

impl Field for CalendarDays {
    ghost of = { date_field_of };

    ghost fits = { date_fits };

    ghost text = { date_text };

    ghost trips = { dates };

    fn read(f: &[u8]) -> Option<CalendarDays> {
        date::read(f)
    }

    #[tactic(auto, using(laws::proofs::Digits::length_digits))]
    fn len(self) -> usize {
        CalendarDays::WIDTH
    }

    fn write(self, out: &mut [u8], at: usize) -> usize {
        date::write(self, out, at)
    }
}

impl Field for Kind {
    ghost of = { kind_of };

    ghost fits = { kind_fits };

    ghost text = { kind_text };

    ghost trips = { kinds };

    fn read(f: &[u8]) -> Option<Kind> {
        Kind::read(f)
    }

    fn len(self) -> usize {
        Kind::WIDTH
    }

    fn write(self, out: &mut [u8], at: usize) -> usize {
        Kind::write(self, out, at)
    }
}

// A field of one width, which may also be empty.
pub trait Fixed: Field {
    ghost WIDTH: { ℕ };

    const WIDTH: usize;

    ghost fixed: { IsFixed WIDTH Self.text };
}

impl Fixed for Code {
    ghost WIDTH = { 4 };

    const WIDTH: usize = 4;

    ghost fixed = { code-fixed };
}

impl Fixed for CalendarDays {
    ghost WIDTH = { 8 };

    const WIDTH: usize = 8;

    ghost fixed = { date-fixed };
}

impl Fixed for Kind {
    ghost WIDTH = { 1 };

    const WIDTH: usize = 1;

    ghost fixed = { kind-fixed };
}

impl<T: Fixed> Field for Option<T> {
    ghost of = { maybe_of T.of };

    ghost fits = { maybe_fits T.fits };

    ghost text = { maybe_text T.text };

    ghost trips = { maybe_trips T.trips T.fixed };

    #[tactic(auto, using(std::proofs::lemmas::Bool::Decides::nat_tests), unfolding(fields::specs::Field::maybe_of, fields::specs::Field::maybe_from))]
    fn read(f: &[u8]) -> Option<Option<T>> {
        if f.is_empty() {
            return Some(None);
        }
        Some(Some(T::read(f)?))
    }

    fn len(self) -> usize {
        match self {
            Some(_) => T::WIDTH,
            None => 0,
        }
    }

    #[tactic(auto, unfolding(laws::specs::Overlay::overlay))]
    fn write(self, out: &mut [u8], at: usize) -> usize {
        match self {
            Some(x) => x.write(out, at),
            None => at,
        }
    }
}

// A field that a plain word gives, and the word for an empty one.
pub trait Worded: Field {
    ghost empty: { ℕ };

    fn empty() -> u64
        ensures { result ≡ empty };

    ghost of_word: { ℕ → Option Self };

    fn of_word(w: u64) -> Option<Self>
        ensures { result ≡ of_word w };

    ghost fitting: { (w : ℕ) (x : Self) → of_word w ≡ Some x → Self.fits x ≡ true };
}

impl Worded for Code {
    ghost empty = { 1000 };

    ghost of_word = { code_of_word };

    ghost fitting = { code-word };

    fn empty() -> u64 {
        1000
    }

    fn of_word(w: u64) -> Option<Code> {
        Code::of_word(w)
    }
}

impl Worded for CalendarDays {
    ghost empty = { 65535 };

    ghost of_word = { date_of_word };

    ghost fitting = { date-word };

    fn empty() -> u64 {
        65535
    }

    fn of_word(w: u64) -> Option<CalendarDays> {
        date::of_word(w)
    }
}

impl Worded for Kind {
    ghost empty = { 3 };

    ghost of_word = { kind_of_word };

    ghost fitting = { kind-word };

    fn empty() -> u64 {
        3
    }

    fn of_word(w: u64) -> Option<Kind> {
        Kind::of_word(w)
    }
}

// What a plain word gives for a field that may be empty.
#[tactic(auto, using(std::proofs::lemmas::Bool::Decides::nat_tests), unfolding(fields::specs::Field::maybe_of_word, fields::specs::Field::maybe_from))]
pub fn maybe_of_word<T: Worded>(w: u64) -> Option<Option<T>>
    ensures { result ≡ maybe_of_word T.empty T.of_word w }
{
    if w == T::empty() {
        return Some(None);
    }
    Some(Some(T::of_word(w)?))
}
