// A number's records found in its group of the index, and the number worked out from them.
ghost use Rattle.std.specs.Prelude.{◌≡◌, ◌≤◌, ◌%◌, length, take, get_or};
ghost use Rattle.laws.specs.Lists.{keep};
ghost use Rattle.order.specs.groups.Groups.{group};
ghost use Rattle.working.specs.Working.{Behind, Gathered, WorkedAfresh};
ghost use Rattle.working.specs.indexing.Index.{front, about_key, keys_behind, Indexed};

use crate::filed::{Filed, Journals};
use crate::indexing::index;
use crate::indexing::tags::{PLACES, Tags};
use crate::work::Worked;
use crate::{gather, work};
use entries::entry::Line;
use fields::number::Number;

// An index of the first files for the wanted first fields: the keys of the records that may name one, and their places grouped. It reads
// the store ('s) and what is wanted ('w), and stands in room of its own ('r).
#[derive(Clone, Copy)]
pub struct Index<'s, 'w, 'r> {
    pub filed: Filed<'s>,
    pub wanted: Tags<'w>,
    pub keys: &'r [u64; 10240],
    pub places: Tags<'r>,
    pub ghost indexed: { Indexed filed.n filed.files.now filed.journals.regular.now filed.journals.corrections.now (take wanted.count wanted.words.now) keys.now places.words.now places.count },
}

impl<'s, 'w, 'r> Index<'s, 'w, 'r> {
    // The index of the first files for the wanted first fields, in the room for its keys and its places.
    pub fn new(
        filed: Filed<'s>,
        wanted: Tags<'w>,
        keys: &'r mut [u64; 10240],
        places: &'r mut [u64; 10240],
    ) -> Index<'s, 'w, 'r>
        ensures filed { result.filed ≡ filed.entry }
        ensures wanted { result.wanted ≡ wanted.entry }
    {
        let count = index::index(&filed, &wanted, keys, places);
        Index {
            filed,
            wanted,
            keys,
            places: Tags {
                words: places,
                count,
            },
        }
    }
}

// The key that a tag stands for; 0 where there is none.
fn key_of(keys: &[u64], tag: u64) -> u64
    ensures { result ≡ get_or keys.now (tag % 16384) 0 }
{
    let place = (tag % PLACES) as usize;
    if place < keys.len() { keys[place] } else { 0 }
}

// Whether the record behind a key names the number.
#[tactic(auto, unfolding(crate::specs::indexing::Index::about_key))]
fn about(journals: &Journals, number: Number, key: u64) -> bool
    ensures { result ≡ about_key journals.now.regular.now journals.now.corrections.now number key }
{
    Number::same(index::number_behind(journals, key), number)
}

// Lays those keys of the group to the front of `out` whose records name the number, and answers how many.
fn pick(journals: &Journals, number: Number, keys: &[u64], group: &[u64], out: &mut [u64]) -> usize
    requires { length group.now ≤ length out.old }
    ensures { let j = journals.now in Behind out.old 0 (keep (about_key j.regular.now j.corrections.now number) (keys_behind keys.now group.now)) out.new result }
{
    let mut r = 0;
    for &tag in group {
        let key = key_of(keys, tag);
        if about(journals, number, key) {
            out[r] = key;
            r += 1;
        }
    }
    r
}

// Lays the keys of those records to the front of `out` that are in the number's group of the index and name it, and answers how many.
fn gather_group(index: &Index, number: Number, out: &mut [u64; 10240]) -> usize
    ensures { let j = index.now.filed.journals in Behind out.old 0 (keep (about_key j.regular.now j.corrections.now number) (keys_behind (take index.now.places.count index.now.keys.now) (group (front number.first.0) (take index.now.places.count index.now.places.words.now)))) out.new result }
{
    let keys = index.keys;
    let keys = &keys[..index.places.count];
    pick(
        &index.filed.journals,
        number,
        keys,
        index.places.group(number),
        out,
    )
}

// Lays the keys of those records of the first files that name the number to the front of `out`, and answers how many there are:
// from the index, where it has the number's first field.
pub fn gather_indexed(index: &Index, number: Number, out: &mut [u64; 10240]) -> usize
    ensures { let f = index.now.filed in Gathered f.n f.files.now f.journals.regular.now f.journals.corrections.now number out.new result }
{
    if number.first.0 != 1 && index.wanted.have(number.first.0) {
        return gather_group(index, number, out);
    }
    gather::gather_all(&index.filed, number, out)
}

// Where a number with this line stands over the first files, worked out afresh, and how many records name it; their keys are
// laid into `room`, which is lent so that it isn't cleared for each number.
pub fn work_indexed(index: &Index, number: Number, line: Line, room: &mut [u64; 10240]) -> Worked
    ensures { let f = index.now.filed in WorkedAfresh f.n f.files.now f.journals.regular.now f.journals.corrections.now number line result.standing result.count }
{
    let r = gather_indexed(index, number, room);
    work::sort_first(room, r);
    work::fold(&index.filed.journals, line, &room[..r])
}
