// Tags: places with the first field of a number in front of each, in order, so that those of a number stand together.
ghost use Rattle.std.specs.Prelude.{◌≡◌, ◌<◌, take};
ghost use Rattle.order.specs.groups.Groups.{tag, group};
ghost use Rattle.working.specs.indexing.Index.{front, is_wanted, Wanted};

use fields::number::Number;

// As many numbers as 48 bits can tell apart: more than a field of digits needs.
pub const FRONTS: u64 = 281474976710656;

// How many places a tag can tell apart.
pub const PLACES: u64 = 16384;

// The first `count` words are tags in order.
#[derive(Clone, Copy)]
pub struct Tags<'a> {
    pub words: &'a [u64; 10240],
    pub count: usize,
    pub ghost ordered: { Wanted words.now count },
}

// A place with the first field of the number in front. One word that is sorted, so it stays packed.
pub fn tag(number: Number, place: usize) -> u64
    requires { place < 16384 }
    ensures { result ≡ tag (front number.first.0) place }
{
    number.first.0 % FRONTS * PLACES + place as u64
}

impl<'a> Tags<'a> {
    // Whether one of them has the first field in front: the first tag that is not below all such is one of them, or there is none.
    pub(crate) fn have(&self, digits: u64) -> bool
        ensures { result ≡ is_wanted (take self.now.count self.now.words.now) digits }
    {
        let words = self.words;
        let tags = &words[..self.count];
        let front = digits % FRONTS;
        let from = order::groups::search(words, self.count, front * PLACES);
        from < tags.len() && tags[from] < (front + 1) * PLACES
    }

    // Those that have the first field of the number in front.
    pub fn group(&self, number: Number) -> &'a [u64]
        ensures { result.now ≡ group (front number.first.0) (take self.now.count self.now.words.now) }
    {
        let words = self.words;
        let tags = &words[..self.count];
        let front = number.first.0 % FRONTS;
        let from = order::groups::search(words, self.count, front * PLACES);
        let to = order::groups::search(words, self.count, (front + 1) * PLACES);
        &tags[from..to]
    }
}
