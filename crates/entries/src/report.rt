// A report on a number: as published, and as it is meant, with the gaining network known.
ghost use Rattle.std.specs.Prelude.{◌≡◌};
ghost use Rattle.entries.specs.Report.{kind_no, gaining_of, meant_by, publisher_of, matches};

use calendar::dates::CalendarDays;
use fields::code::Code;
use fields::gaining::Gaining;
use fields::kind::Kind;

// A report as published. A Z may leave its gaining network out.
#[derive(Clone, Copy, PartialEq, Eq)]
pub struct Published {
    pub kind: Kind,
    pub date: CalendarDays,
    pub losing: Code,
    pub gaining: Gaining,
}

// A report whose gaining network is known.
#[derive(Clone, Copy, PartialEq, Eq)]
pub struct Report {
    pub kind: Kind,
    pub date: CalendarDays,
    pub losing: Code,
    pub gaining: Code,
}

// A kind's number, from 0 in the order in which the kinds are named.
pub fn kind_no(k: Kind) -> u8
    ensures { result ≡ kind_no k }
{
    k as u8
}

// The gaining network; one that is left out is the owner.
pub fn gaining(owner: Code, g: Gaining) -> Code
    ensures { result ≡ gaining_of owner g }
{
    match g {
        Gaining::Code(c) => c,
        Gaining::Owner => owner,
    }
}

// The report that is meant where the number has this owner.
pub fn meant(owner: Code, p: Published) -> Report
    ensures { result ≡ meant_by owner p }
{
    Report {
        kind: p.kind,
        date: p.date,
        losing: p.losing,
        gaining: gaining(owner, p.gaining),
    }
}

// The network that has to publish a report.
pub fn publisher(r: Report) -> Code
    ensures { result ≡ publisher_of r }
{
    match r.kind {
        Kind::P => r.gaining,
        Kind::L | Kind::Z => r.losing,
    }
}

// Two reports on one number match.
pub fn matching(q: Report, r: Report) -> bool
    ensures { result ≡ matches q r }
{
    q.date == r.date && q.losing == r.losing && q.gaining == r.gaining
}
