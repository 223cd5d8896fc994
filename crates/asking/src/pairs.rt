// The two reports of a confirmed pair, as the regular journal holds them.
ghost use Rattle.std.specs.Prelude.{◌≡◌, ◌+◌, ◌*◌, ◌≤◌, ◌<◌, length};
ghost use Rattle.laws.specs.Lists.{table as tabled};
ghost use Rattle.store.specs.journals.Files.{file_at, records_of};
ghost use Rattle.asking.specs.pairs.Pairs.{is_listed_of, start_by, listed_as, listed_pair};

use calendar::dates::CalendarDays;
use entries::entry::Place;
use entries::report;
use fields::code::Code;
use store::journals::files::File;
use store::journals::{files, sums};
use verdict::step::Why;

// A stored report: its place in the regular journal, its publisher and its publication day.
#[derive(Clone, Copy)]
pub struct Stored {
    pub place: usize,
    pub publisher: Code,
    pub day: CalendarDays,
}

// The two reports of a pair, the one processed first coming first.
#[derive(Clone, Copy)]
pub struct Pair {
    pub first: Stored,
    pub second: Stored,
}

// Whether a file is the default file of a publisher and a day.
#[tactic(auto, unfolding(crate::specs::pairs::Pairs::is_listed_of))]
fn is_listed_of(f: File, publisher: Code, day: CalendarDays) -> bool
    ensures { result ≡ is_listed_of publisher.0 day.0 f }
{
    (f.kind == 0) & (f.publisher == publisher.0) & (f.day == day.0)
}

// Where the reports of the default file of a publisher and a day begin in the regular journal.
fn start_of(files: &[u8], n: usize, publisher: Code, day: CalendarDays) -> usize
    requires { (2 + n * 8 ≤ length files.now) × (n < 65536) }
    ensures { result ≡ start_by publisher.0 day.0 (tabled n (file_at files.now)) }
{
    let mut start = 0;
    for k in 0..n {
        let f = files::file_at(files, k);
        if is_listed_of(f, publisher, day) {
            return start;
        }
        start += sums::records_in(f, 0);
    }
    start
}

// The stored report of a place: its file is that of the report's publisher on its publication day.
#[tactic(auto, using(crate::proofs::pairs::Starts::start_below))]
fn stored_of(files: &[u8], n: usize, p: Place) -> Stored
    requires n_in_bounds { (2 + n * 8 ≤ length files.now) × (n < 65536) }
    requires files_bound { records_of 0 (tabled n (file_at files.now)) ≤ 8192 }
    ensures { result ≡ listed_as (tabled n (file_at files.now)) p }
{
    let publisher = report::publisher(p.report);
    let start = start_of(files, n, publisher, p.day);
    Stored {
        place: start + p.at as usize,
        publisher,
        day: p.day,
    }
}

// The stored reports of a pair.
pub(crate) fn pair_in(files: &[u8], n: usize, w: Why) -> Option<Pair>
    requires n_in_bounds { (2 + n * 8 ≤ length files.now) × (n < 65536) }
    requires files_bound { records_of 0 (tabled n (file_at files.now)) ≤ 8192 }
    ensures { result ≡ listed_pair (tabled n (file_at files.now)) w }
{
    match w {
        Why::Nothing => None,
        Why::Pair(a, b) => Some(Pair {
            first: stored_of(files, n, a),
            second: stored_of(files, n, b),
        }),
    }
}
