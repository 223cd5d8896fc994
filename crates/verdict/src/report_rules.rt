// The verdict on a report: the first line of the table that applies.
ghost use Rattle.std.specs.Prelude.{◌≡◌};
ghost use Rattle.laws.specs.Lists.{first_line};
ghost use Rattle.verdict.specs.report_rules.Reports.{report_lines, report_verdict};

use crate::report_tests::{before_last, equals_last, partner_open, to_other, too_soon, zed_open};
use crate::table::first_line;
use crate::verdicts::Verdict;
use calendar::dates::CalendarDays;
use entries::entry::{Entry, Line};
use entries::report::Report;
use entries::{entry, places, report};
use fields::code::Code;

// The lines 13 to the second 11 on a report that the network `from` published on `day`; `otherwise` where none applies.
pub fn ruled(
    n: Option<Line>,
    e: Entry,
    from: Code,
    day: CalendarDays,
    r: Report,
    otherwise: Verdict,
) -> Verdict
    ensures { result ≡ first_line (report_lines n e from day r) otherwise }
{
    let line = entry::line_in(n);
    let zed = zed_open(e.places, r);
    let lines = [
        (from != report::publisher(r), Verdict::WrongPublisher),
        (r.losing == r.gaining, Verdict::SameNetworks),
        (day.0 <= r.date.0, Verdict::NotBeforePublication),
        (r.date.0 < line.setup.0, Verdict::BeforeSetUp),
        (before_last(r.date, e.last), Verdict::BeforeLast),
        (equals_last(r.date, e.last), Verdict::EqualsLast),
        (to_other(line.owner, r), Verdict::NotToOwner),
        (places::is_open(e.places, r.kind, r), Verdict::AlreadyOpen),
        (partner_open(e.places, r), Verdict::Confirmed),
        (zed & too_soon(e.places, day, r), Verdict::TooSoon),
        (zed, Verdict::Confirmed),
    ];
    first_line(&lines, otherwise)
}

// The verdict on it.
pub fn verdict(n: Option<Line>, e: Entry, from: Code, day: CalendarDays, r: Report) -> Verdict
    ensures { result ≡ report_verdict n e from day r }
{
    if entry::is_missing(n) {
        return Verdict::UnknownNumber;
    }
    if places::is_full(e.places) {
        return ruled(n, e, from, day, r, Verdict::Full);
    }
    ruled(n, e, from, day, r, Verdict::Kept)
}
