// One field by itself, and the rules over two.
ghost use Rattle.std.specs.Prelude.{◌≡◌, Result, ⊤};
ghost use Rattle.laws.specs.Lists.{all};
ghost use Rattle.faults.specs.Field.{is_character, alone, digits_alone, date_alone, code_alone, kind_alone, correction_code_alone, mark_alone, nothing_alone, allowed, is_range, is_return, is_named, objects};

use crate::cause::Cause;
use fields::code::Code;
use fields::correction_code::CorrectionCode;
use fields::kind::Kind;
use fields::number::{Digits, Number};

// A character of 4.4.1.
#[tactic(auto, unfolding(crate::specs::Field::is_character))]
fn is_character(b: u8) -> bool
    ensures { result ≡ is_character b }
{
    matches!(b, b'\t' | b'\n' | b'\r' | b' '..=b'~' | 192..=255)
}

fn are_characters(f: &[u8]) -> bool
    ensures { result ≡ all is_character f.now }
{
    f.iter().all(|&b| is_character(b))
}

// The causes in their order, for a field whose length and value were looked at.
#[tactic(auto, unfolding(crate::specs::Field::alone))]
fn alone(
    f: &[u8],
    empty: Result<(), Cause>,
    long: bool,
    good: bool,
    cause: Cause,
) -> Result<(), Cause>
    ensures { result ≡ alone empty long good cause f.now }
{
    if !are_characters(f) {
        return Err(Cause::Character);
    }
    if f.is_empty() {
        return empty;
    }
    if !long {
        return Err(Cause::Length);
    }
    if !good {
        return Err(cause);
    }
    Ok(())
}

#[tactic(auto, unfolding(crate::specs::Field::digits_alone))]
pub(crate) fn digits_alone(f: &[u8], empty: Result<(), Cause>) -> Result<(), Cause>
    ensures { result ≡ digits_alone empty f.now }
{
    alone(
        f,
        empty,
        f.len() <= 11,
        Digits::read(f).is_some(),
        Cause::Value,
    )
}

#[tactic(auto, unfolding(crate::specs::Field::date_alone))]
pub(crate) fn date_alone(f: &[u8], empty: Result<(), Cause>) -> Result<(), Cause>
    ensures { result ≡ date_alone empty f.now }
{
    alone(
        f,
        empty,
        f.len() == 8,
        fields::date::read(f).is_some(),
        Cause::Date,
    )
}

#[tactic(auto, unfolding(crate::specs::Field::code_alone))]
pub(crate) fn code_alone(f: &[u8], empty: Result<(), Cause>) -> Result<(), Cause>
    ensures { result ≡ code_alone empty f.now }
{
    alone(f, empty, f.len() == 4, Code::read(f).is_some(), Cause::Code)
}

#[tactic(auto, unfolding(crate::specs::Field::kind_alone))]
pub(crate) fn kind_alone(f: &[u8], empty: Result<(), Cause>) -> Result<(), Cause>
    ensures { result ≡ kind_alone empty f.now }
{
    alone(
        f,
        empty,
        f.len() == 1,
        Kind::read(f).is_some(),
        Cause::Value,
    )
}

#[tactic(auto, unfolding(crate::specs::Field::correction_code_alone))]
pub(crate) fn correction_code_alone(f: &[u8]) -> Result<(), Cause>
    ensures { result ≡ correction_code_alone f.now }
{
    alone(
        f,
        Err(Cause::Length),
        f.len() == 4,
        CorrectionCode::read(f).is_some(),
        Cause::Value,
    )
}

// A letter and a colon.
#[tactic(auto, unfolding(crate::specs::Field::mark_alone))]
pub(crate) fn mark_alone(f: &[u8], letter: u8) -> Result<(), Cause>
    ensures { result ≡ mark_alone letter f.now }
{
    let good = records::closing::same(f, &[letter, b':']);
    alone(f, Err(Cause::Length), f.len() == 2, good, Cause::Value)
}

#[tactic(auto, unfolding(crate::specs::Field::nothing_alone))]
pub(crate) fn nothing_alone(f: &[u8]) -> Result<(), Cause>
    ensures { result ≡ nothing_alone f.now }
{
    alone(f, Ok(()), false, false, Cause::Length)
}

// A field that is right by itself may still break a rule over two.
pub(crate) fn allowed(itself: Result<(), Cause>, rule: bool) -> Result<(), Cause>
    ensures { result ≡ allowed itself rule }
{
    itself?;
    if rule { Ok(()) } else { Err(Cause::Value) }
}

// The second number field beside the first.
#[tactic(auto, unfolding(crate::specs::Field::is_range))]
pub(crate) fn is_range(a: &[u8], b: &[u8]) -> bool
    ensures { result ≡ is_range a.now b.now }
{
    Digits::read(a).is_some_and(|first| Number::read(first, b).is_some())
}

fn is_return(k: Kind) -> bool
    ensures { result ≡ is_return k }
{
    matches!(k, Kind::Z)
}

// Only a Z may leave the gaining network out.
#[tactic(auto, unfolding(crate::specs::Field::is_named))]
pub(crate) fn is_named(gaining: &[u8], status: &[u8]) -> bool
    ensures { result ≡ is_named gaining.now status.now }
{
    !gaining.is_empty() || Kind::read(status).is_some_and(is_return)
}

// The code of an objection.
#[tactic(auto, unfolding(crate::specs::Field::objects))]
pub(crate) fn objects(code: &[u8]) -> bool
    ensures { result ≡ objects code.now }
{
    CorrectionCode::read(code).is_some_and(CorrectionCode::is_objection)
}
