// The entry of a number at the point of its history that a record has: worked out from the records processed before it.
ghost use Rattle.std.specs.Prelude.{◌≡◌, ◌<◌, take};
ghost use mathlib.Core.List.{foldl};
ghost use Rattle.verdict.specs.Step.{first_standing};
ghost use Rattle.store.specs.journals.Files.{file_at};
ghost use Rattle.store.specs.journals.Reads.{read_files};
ghost use Rattle.model.specs.Model.{worked, before, history};
ghost use Rattle.rules.specs.Rules.{rules};
ghost use Rattle.working.specs.Working.{table_line, record_in, stand_before};

use crate::filed::{Filed, Journals};
use crate::{gather, work};
use entries::entry::{Entry, Line};
use fields::number::Number;
use verdict::step;
use verdict::step::Standing;

// Where the number stands after the record behind a key, if that one is processed before the record with the key `mark`. The last
// digits of a key are the place in the journal, and have no part in the processing order.
#[tactic(auto, unfolding(crate::specs::Working::stand_before))]
fn stand_before(journals: &Journals, line: Line, mark: u64, s: Standing, key: u64) -> Standing
    ensures { result ≡ stand_before line journals.now.regular.now journals.now.corrections.now mark s key }
{
    if key / 8192 < mark / 8192 {
        return work::stand_behind(journals, line, s, key);
    }
    s
}

// The fold over those of the records behind the keys that are processed before the one with the key `mark`.
fn fold_before(journals: &Journals, line: Line, mark: u64, keys: &[u64]) -> Standing
    ensures { result ≡ foldl (stand_before line journals.now.regular.now journals.now.corrections.now mark) (first_standing line) keys.now }
{
    let first = step::first(line);
    keys.iter().fold(first, |s, &key| stand_before(journals, line, mark, s, key))
}

// The entry that those records of a number lead to that are processed before the record at a place of the file k.
pub fn entry_before(filed: &Filed, number: Number, line: Line, k: usize, place: usize) -> Entry
    requires { (k < filed.now.n) × (place < (file_at filed.now.files.now k).count) }
    ensures { let j = filed.now.journals in result ≡ worked rules (table_line number line) (before rules (record_in filed.now.files.now j.regular.now j.corrections.now k place) (history rules (take filed.now.n (read_files filed.now.files.now j.regular.now j.corrections.now)) number)) }
{
    let mark = filed.records(k).key(place);
    let mut keys = [0u64; 10240];
    let r = gather::gather_all(filed, number, &mut keys);
    work::sort_first(&mut keys, r);
    fold_before(&filed.journals, line, mark, &keys[..r]).entry
}
