// What an answer tells in plain numbers: its own, and four values at most.
ghost use Rattle.std.specs.Prelude.{◌≡◌, [], ◌∷◌};
ghost use Rattle.laws.specs.Told.{told};
ghost use Rattle.faults.specs.Cause.{fault_told};
ghost use Rattle.asking.specs.answering.Figure.{figure_told};
ghost use Rattle.capi.specs.Told.{in_numbers};

use asking::answer::Unreadable;
use faults::cause::{Cause, FaultPlace};

#[derive(Drop)]
pub struct Numbers {
    pub number: u8,
    pub first: u64,
    pub second: u64,
    pub third: u64,
    pub fourth: u64,
}

impl Numbers {
    // A number with which nothing goes: `none` stands for each value.
    pub(crate) fn without(number: u8, none: u64) -> Numbers
        ensures { result ≡ in_numbers none (told number []) }
    {
        Numbers {
            number,
            first: none,
            second: none,
            third: none,
            fourth: none,
        }
    }
}

// A number with which nothing goes: 0 for each value.
pub(crate) fn alone(number: u8) -> Numbers
    ensures { result ≡ in_numbers 0 (told number []) }
{
    Numbers::without(number, 0)
}

// A number, and one value.
pub(crate) fn with(number: u8, value: usize) -> Numbers
    ensures { result ≡ in_numbers 0 (told number (value ∷ [])) }
{
    Numbers {
        first: value as u64,
        ..alone(number)
    }
}

// 4, and the fault.
pub(crate) fn fault(at: FaultPlace, cause: Cause) -> Numbers
    ensures { result ≡ in_numbers 0 (fault_told at cause) }
{
    Numbers {
        first: at.place as u64,
        second: at.field as u64,
        third: cause.number() as u64,
        ..alone(4)
    }
}

// How many entries differ, or changed: 0, and so many; 44.
impl From<Result<usize, Unreadable>> for Numbers {
    ghost from_gives = { λ r n. n ≡ in_numbers 0 (figure_told r) };

    fn from(counted: Result<usize, Unreadable>) -> Numbers {
        match counted {
            Ok(n) => with(0, n),
            Err(_) => alone(44),
        }
    }
}
