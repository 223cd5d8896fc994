// The answers, kept until what was filed is on the disk.
ghost use Rattle.std.specs.Prelude.{◌≡◌, ◌≤◌};

use crate::MOST;
use filing::checking::answer::NotFiled;

// As many as stand in the front of the array.
#[derive(Drop)]
pub struct Kept {
    answers: [Result<usize, NotFiled>; MOST],
    count: usize,
    ghost fits: { count ≤ 16384 },
}

impl Kept {
    ghost use Rattle.std.specs.Prelude.{[]};
    ghost use Rattle.offers.specs.Kept.{kept, with_answer};

    pub fn new() -> Kept
        ensures { kept result ≡ [] }
    {
        Kept {
            answers: [Err(NotFiled::Unreadable); MOST],
            count: 0,
        }
    }

    // Keeps one answer more; there is no place for one behind the last.
    pub fn push(&mut self, answer: Result<usize, NotFiled>)
        ensures { kept self.new ≡ with_answer (kept self.old) answer }
    {
        if self.count < MOST {
            self.answers[self.count] = answer;
            self.count += 1;
        }
    }

    pub fn clear(&mut self)
        ensures { kept self.new ≡ [] }
    {
        self.count = 0;
    }

    pub fn as_slice(&self) -> &[Result<usize, NotFiled>]
        ensures { result.now ≡ kept self.now }
    {
        &self.answers[..self.count]
    }
}
