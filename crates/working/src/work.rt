// Where a number stands, worked out afresh.
ghost use Rattle.std.specs.Prelude.{◌≡◌, ◌++◌, take, drop};
ghost use Rattle.laws.specs.Order.{sorted};
ghost use Rattle.rules.specs.Rules.{record_of};
ghost use Rattle.working.specs.Slips.{event_behind};
ghost use Rattle.working.specs.Working.{stand_behind, folded_behind, WorkedAfresh};

use crate::filed::{Filed, Journals};
use crate::{filed, gather};
use calendar::dates::CalendarDays;
use entries::entry::Line;
use fields::code::Code;
use fields::number::Number;
use verdict::step;
use verdict::step::{Record, Standing};

// Where a number stands, and how many records were folded to get there.
#[derive(Drop)]
pub struct Worked {
    pub standing: Standing,
    pub count: usize,
}

// The record behind a key.
#[tactic(auto, unfolding(crate::specs::Slips::event_behind))]
fn record_behind(journals: &Journals, key: u64) -> Record
    ensures { result ≡ record_of (event_behind journals.now.regular.now journals.now.corrections.now key) }
{
    let bytes = journals.bytes_behind(key);
    Record {
        publisher: Code((key / 8192 / 8192 % 1024) as u16),
        day: CalendarDays((key / 8192 / 8192 / 1024 / 16 % 32768) as u16),
        at: (key / 8192 % 8192) as u32,
        says: rules::records::says_in(filed::kind_behind(key), bytes),
    }
}

// Where the number stands after the record behind a key.
#[tactic(auto, unfolding(crate::specs::Working::stand_behind))]
pub fn stand_behind(journals: &Journals, line: Line, s: Standing, key: u64) -> Standing
    ensures { result ≡ stand_behind line journals.now.regular.now journals.now.corrections.now s key }
{
    step::stand(line, s, record_behind(journals, key))
}

// The fold over the records behind the keys: where it leads, and how many records were folded, each counted as it is folded.
pub(crate) fn fold(journals: &Journals, line: Line, keys: &[u64]) -> Worked
    ensures { result ≡ folded_behind line journals.now.regular.now journals.now.corrections.now keys.now }
{
    let mut worked = Worked {
        standing: step::first(line),
        count: 0,
    };
    for &key in keys {
        worked.standing = stand_behind(journals, line, worked.standing, key);
        worked.count += 1;
    }
    worked
}

// Puts the first r keys in order.
pub fn sort_first(keys: &mut [u64; 10240], r: usize)
    ensures { keys.new ≡ sorted (take r keys.old) ++ drop r keys.old }
{
    order::sort(keys, r);
}

// Where a number with this line stands over the first files, worked out afresh, and how many records name it.
pub fn work_out(filed: &Filed, number: Number, line: Line) -> Worked
    ensures { let j = filed.now.journals in WorkedAfresh filed.now.n filed.now.files.now j.regular.now j.corrections.now number line result.standing result.count }
{
    let mut keys = [0u64; 10240];
    let r = gather::gather_all(filed, number, &mut keys);
    sort_first(&mut keys, r);
    fold(&filed.journals, line, &keys[..r])
}
