// The numbers that a file's records name: the records' places in order of the numbers' first fields, and whether an earlier record
// names a number.
ghost use Rattle.std.specs.Prelude.{◌≡◌, ◌+◌, ◌%◌, ◌≤◌, ◌<◌, length, take};
ghost use Rattle.laws.specs.Lists.{table, any};
ghost use Rattle.order.specs.groups.Groups.{tag};
ghost use Rattle.store.specs.journals.Reads.{records_at};
ghost use Rattle.filing.specs.renewing.Turns.{filed_from, number_from, named_to, earlier, front_from, Tagged};

use fields::number::Number;
use working::filed::FileRecords;
use working::indexing::tags;
use working::indexing::tags::{PLACES, Tags};

// The records of a file with their tags in order.
#[derive(Clone, Copy)]
pub(crate) struct TaggedFile<'s, 'w> {
    pub(crate) records: FileRecords<'s>,
    pub(crate) tags: Tags<'w>,
    ghost tagged: { Tagged (filed_from (records_at records.journals.regular.now records.journals.corrections.now) records.file records.start) tags.words.now tags.count },
}

// The number that the record at a place of a file names.
pub(crate) fn number_at(records: &FileRecords, place: usize) -> Number
    requires { place < records.now.file.count }
    ensures { let r = records.now in result ≡ number_from (filed_from (records_at r.journals.regular.now r.journals.corrections.now) r.file r.start) place }
{
    rules::records::number_in(records.file.kind, records.bytes(place))
}

// Lays the tags of a file's records.
fn lay_tags(records: &FileRecords, wanted: &mut [u64])
    requires { (records.now.file.count ≤ 8192) × (records.now.file.count ≤ length wanted.old) }
    ensures { let r = records.now in take r.file.count wanted.new ≡ table r.file.count (λ i. tag (front_from (filed_from (records_at r.journals.regular.now r.journals.corrections.now) r.file r.start) i) i) }
{
    for i in 0..records.file.count as usize {
        wanted[i] = tags::tag(number_at(records, i), i);
    }
}

// The file with the tags of its records, in order.
pub(crate) fn tag_file<'s, 'w>(
    records: &FileRecords<'s>,
    wanted: &'w mut [u64; 10240],
) -> TaggedFile<'s, 'w>
    ensures { result.records ≡ records.now }
{
    lay_tags(records, wanted);
    let count = records.file.count as usize;
    order::sort(wanted, count);
    TaggedFile {
        records: *records,
        tags: Tags {
            words: wanted,
            count,
        },
    }
}

// Whether the record that a tag stands for is among the first j of the file, and names the number.
fn is_earlier(records: &FileRecords, j: usize, number: Number, tag: u64) -> bool
    requires { j ≤ records.now.file.count }
    ensures { let r = records.now in result ≡ earlier (filed_from (records_at r.journals.regular.now r.journals.corrections.now) r.file r.start) j number (tag % 16384) }
{
    let place = (tag % PLACES) as usize;
    place < j && Number::same(number_at(records, place), number)
}

// Whether one of the first j records of the file names the number: only those with its first field are looked at.
pub(crate) fn named_before(file: &TaggedFile, j: usize, number: Number) -> bool
    requires { j ≤ file.now.records.file.count }
    ensures { let r = file.now.records in result ≡ named_to (filed_from (records_at r.journals.regular.now r.journals.corrections.now) r.file r.start) j number }
{
    file.tags
        .group(number)
        .iter()
        .any(|&tag| is_earlier(&file.records, j, number, tag))
}
