// The index: the keys of the records that may name a wanted number, and their places grouped by the first field of the number.
ghost use Rattle.std.specs.Prelude.{◌≡◌, ◌+◌, ◌*◌, ◌%◌, ◌≤◌, ◌<◌, length, take, get_or};
ghost use Rattle.laws.specs.Lists.{table};
ghost use Rattle.order.specs.groups.Groups.{tag};
ghost use Rattle.working.specs.indexing.Index.{is_wanted, Marked, may_name, number_behind, front_behind, Indexed};

use crate::filed::{Filed, Journals, kind_behind};
use crate::gather;
use crate::gather::Wanting;
use crate::indexing::tags;
use crate::indexing::tags::{FRONTS, PLACES, Tags};
use fields::number::Number;

// How many marks there are for first fields.
const MARKS: u64 = 1024;

// Marks the first fields that the tags have in front, by their last bits.
fn mark(words: &[u64], marks: &mut [bool])
    requires { 1024 ≤ length marks.old }
    ensures { Marked words.now marks.new }
{
    for &word in words {
        marks[(word / PLACES % MARKS) as usize] = true;
    }
}

// Tags and a mark for each.
#[derive(Clone, Copy)]
struct Sieve<'a> {
    tags: Tags<'a>,
    marks: &'a [bool; 1024],
    ghost marked: { Marked (take tags.count tags.words.now) marks.now },
}

impl Sieve<'_> {
    // Whether one of the tags has the first field in front: most that none has are told by their mark, and not searched for.
    fn has(&self, digits: u64) -> bool
        ensures { result ≡ is_wanted (take self.now.tags.count self.now.tags.words.now) digits }
    {
        let at = (digits % FRONTS % MARKS) as usize;
        self.marks[at] && self.tags.have(digits)
    }
}

// The records that may name a number with a wanted first field, by the bytes up to their first comma.
impl Wanting for Sieve<'_> {
    ghost takes = { λ s kind bytes. may_name (take s.tags.count s.tags.words.now) kind bytes };

    fn takes(&self, kind: u8, bytes: &[u8]) -> bool {
        let digits = rules::records::first_in(kind, bytes);
        digits == 1 || self.has(digits)
    }
}

// The number that the record behind a key names.
#[tactic(auto, unfolding(crate::specs::indexing::Index::number_behind))]
pub fn number_behind(journals: &Journals, key: u64) -> Number
    ensures { result ≡ number_behind journals.now.regular.now journals.now.corrections.now key }
{
    rules::records::number_in(kind_behind(key), journals.bytes_behind(key))
}

// Lays the tags of the keys.
fn lay_tags(journals: &Journals, keys: &[u64], places: &mut [u64])
    requires { (length keys.now ≤ 10240) × (length keys.now ≤ length places.old) }
    ensures { take (length keys.now) places.new ≡ table (length keys.now) (λ i. tag (front_behind journals.now.regular.now journals.now.corrections.now (get_or keys.now i 0)) i) }
{
    for (i, &key) in keys.iter().enumerate() {
        places[i] = tags::tag(number_behind(journals, key), i);
    }
}

// Lays the index of the first files for the wanted first fields; answers how many records it has.
pub fn index(
    filed: &Filed,
    wanted: &Tags,
    keys: &mut [u64; 10240],
    places: &mut [u64; 10240],
) -> usize
    ensures { let j = filed.now.journals in Indexed filed.now.n filed.now.files.now j.regular.now j.corrections.now (take wanted.now.count wanted.now.words.now) keys.new places.new result }
{
    let mut marks = [false; 1024];
    let words = wanted.words;
    mark(&words[..wanted.count], &mut marks);
    let sieve = Sieve {
        tags: *wanted,
        marks: &marks,
    };
    let c = gather::gather(filed, &sieve, keys);
    lay_tags(&filed.journals, &keys[..c], places);
    order::sort(places, c);
    c
}
