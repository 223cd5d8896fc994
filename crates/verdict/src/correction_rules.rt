// The verdict on an objection, the first of the rules that applies; and on any other correction.
ghost use Rattle.std.specs.Prelude.{◌≡◌};
ghost use Rattle.verdict.specs.correction_rules.Corrections.{is_permitted, names_own, names_open, objection_verdict, other_verdict};

use crate::table::first_line;
use crate::verdicts::Verdict;
use entries::entry::{Entry, Line, PLACES, Place};
use entries::report::Published;
use entries::{entry, places, report};
use fields::code::Code;
use fields::kind::Kind;

// The codes that are permitted against a P and an L, and against a Z.
pub const AGAINST_P_L: [u16; 12] = [
    2500, 2501, 2502, 2503, 2504, 2505, 2506, 2507, 2508, 2510, 2547, 2599,
];

pub const AGAINST_Z: [u16; 3] = [2500, 2502, 2599];

// An objection: its code, 25XX, and the report that it names.
#[derive(Clone, Copy, PartialEq, Eq)]
pub struct Objection {
    pub code: u16,
    pub named: Published,
}

// The code is permitted against a report of this kind.
pub fn permitted(k: Kind, code: u16) -> bool
    ensures { result ≡ is_permitted k code }
{
    match k {
        Kind::P | Kind::L => AGAINST_P_L.contains(&code),
        Kind::Z => AGAINST_Z.contains(&code),
    }
}

// The network `by` published the named report.
fn names_own(owner: Code, named: Published, by: Code) -> bool
    ensures { result ≡ names_own owner named by }
{
    by == report::publisher(report::meant(owner, named))
}

// The named report is open.
fn names_open(owner: Code, named: Published, places: [Place; PLACES]) -> bool
    ensures { result ≡ names_open owner named places }
{
    places::is_open(places, named.kind, report::meant(owner, named))
}

// The verdict on an objection of the network `by`.
pub fn verdict(n: Option<Line>, e: Entry, by: Code, o: Objection) -> Verdict
    ensures { result ≡ objection_verdict n e by o }
{
    let owner = entry::line_in(n).owner;
    let lines = [
        (entry::is_missing(n), Verdict::UnknownNumber),
        (!permitted(o.named.kind, o.code), Verdict::NotPermitted),
        (names_own(owner, o.named, by), Verdict::OwnReport),
        (!names_open(owner, o.named, e.places), Verdict::NotOpen),
    ];
    first_line(&lines, Verdict::Lapses)
}

// The verdict on any other correction.
pub fn other(n: Option<Line>) -> Verdict
    ensures { result ≡ other_verdict n }
{
    if entry::is_missing(n) {
        return Verdict::UnknownNumber;
    }
    Verdict::OtherCode
}
