// One pass over the first files: the keys of the records that pass a test are laid down, such as of those that name a number.
ghost use Rattle.std.specs.Prelude.{◌≡◌, Bool, ℕ, List, cond, ◌+◌, ◌≤◌, eqb, length};
ghost use Rattle.fields.specs.Number.{same_number};
ghost use Rattle.rules.specs.Records.{number_in};
ghost use Rattle.store.specs.journals.Files.{file_at};
ghost use Rattle.store.specs.journals.Reads.{records_at};
ghost use Rattle.working.specs.Working.{apart, Behind, Gathered};
ghost use Rattle.working.specs.Passing.{passes_at, Passing};
ghost use Rattle.working.specs.indexing.Index.{listed_in};

use crate::filed::{FileRecords, Filed};
use fields::number::Number;
use store::journals::files::File;
use store::journals::sums;

// What a pass looks for: a test of a record by the kind of its file and its bytes.
pub(crate) trait Wanting {
    ghost takes: { Self → ℕ → List ℕ → Bool };

    fn takes(&self, kind: u8, bytes: &[u8]) -> bool
        ensures { result ≡ takes self.now kind bytes.now };
}

// Whether a record with this first field cannot name the number.
#[tactic(auto, unfolding(crate::specs::Working::apart))]
fn is_apart(first: u64, number: Number) -> bool
    ensures { result ≡ apart first number }
{
    let wanted = number.first.0;
    first != wanted && first != 1 && wanted != 1
}

// The records that name the number. Most that do not are told by their first field, and not read.
impl Wanting for Number {
    ghost takes = { λ n kind bytes. same_number (number_in kind bytes) n };

    fn takes(&self, kind: u8, bytes: &[u8]) -> bool {
        !is_apart(rules::records::first_in(kind, bytes), *self)
            && Number::same(rules::records::number_in(kind, bytes), *self)
    }
}

// Lays the keys of those records of a file that pass behind the first `at` keys, and answers how many keys there are then.
fn gather_file<W: Wanting>(records: &FileRecords, wanting: &W, keys: &mut [u64], at: usize) -> usize
    requires { at + records.now.file.count ≤ length keys.old }
    ensures { let r = records_at records.now.journals.regular.now records.now.journals.corrections.now in Behind keys.old at (listed_in (passes_at (W.takes wanting.now) r) r records.now.file records.now.start records.now.file.count) keys.new result }
{
    let mut r = at;
    for i in 0..records.file.count as usize {
        if wanting.takes(records.file.kind, records.bytes(i)) {
            keys[r] = records.key(i);
            r += 1;
        }
    }
    r
}

// Where a file's records begin in either journal: behind those of the files before it.
#[derive(Clone, Copy)]
pub struct Begins {
    pub reports: usize,
    pub objections: usize,
}

impl Begins {
    // Those of a file of this kind.
    pub fn of(self, kind: u8) -> usize
        ensures { result ≡ cond (eqb kind 0) self.reports self.objections }
    {
        if kind == 0 {
            self.reports
        } else {
            self.objections
        }
    }
}

// Lays the keys of those records of the first files that pass to the front of `keys`, and answers how many there are.
pub(crate) fn gather<W: Wanting>(filed: &Filed, wanting: &W, keys: &mut [u64]) -> usize
    requires { 10240 ≤ length keys.old }
    ensures { let j = filed.now.journals in Passing filed.now.n filed.now.files.now j.regular.now j.corrections.now (W.takes wanting.now) keys.new result }
{
    let mut r = 0;
    let mut begins = Begins {
        reports: 0,
        objections: 0,
    };
    for k in 0..filed.n {
        let kind = store::journals::files::file_at(filed.files, k).kind;
        let records = filed.records_from(k, begins.of(kind));
        r = gather_file(&records, wanting, keys, r);
        begins.reports += sums::records_in(records.file, 0);
        begins.objections += sums::records_in(records.file, 1);
    }
    r
}

// Lays the keys of those records of the first files that name the number to the front of `keys`, and answers how many there are.
pub(crate) fn gather_all(filed: &Filed, number: Number, keys: &mut [u64; 10240]) -> usize
    ensures { let j = filed.now.journals in Gathered filed.now.n filed.now.files.now j.regular.now j.corrections.now number keys.new result }
{
    gather(filed, &number, keys)
}
