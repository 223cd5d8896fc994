// The verdicts, and what each does. `number_of` in specs/verdicts gives each its number in paper 01.
ghost use Rattle.std.specs.Prelude.{◌≡◌};
ghost use Rattle.verdict.specs.verdicts.Numbers.{number_of};
ghost use Rattle.verdict.specs.verdicts.Does.{does_by};

// What a report or a correction gets.
#[derive(Clone, Copy, PartialEq, Eq)]
pub enum Verdict {
    Kept = 10,
    Confirmed = 11,
    UnknownNumber = 12,
    WrongPublisher = 13,
    SameNetworks = 14,
    NotBeforePublication = 15,
    BeforeSetUp = 16,
    BeforeLast = 17,
    EqualsLast = 18,
    NotToOwner = 19,
    AlreadyOpen = 20,
    TooSoon = 21,
    Full = 22,
    Lapses = 30,
    NotPermitted = 31,
    OwnReport = 32,
    NotOpen = 33,
    OtherCode = 34,
}

// A verdict's number in paper 01.
pub fn number(v: Verdict) -> u8
    ensures { result ≡ number_of v }
{
    v as u8
}

// What a verdict does: the report is kept open, or confirmed; the named report lapses; nothing changes.
#[derive(Clone, Copy, PartialEq, Eq)]
pub enum Doing {
    Keeps,
    Confirms,
    Lapses,
    Nothing,
}

// What a verdict does.
pub fn does(v: Verdict) -> Doing
    ensures { result ≡ does_by v }
{
    match v {
        Verdict::Kept => Doing::Keeps,
        Verdict::Confirmed => Doing::Confirms,
        Verdict::Lapses => Doing::Lapses,
        _ => Doing::Nothing,
    }
}
