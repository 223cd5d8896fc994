// Why a look shows nothing. A look shows from any bytes that can be shown from (`showable`) what a store answers, without judging whether all of
// it reads: it is no answer of paper 01, and has no number there. `answering::whole` judges the store, looks, and answers.
ghost use Rattle.std.specs.Prelude.{◌≡◌};
ghost use Rattle.asking.specs.Looks.{answer_by, record_answer_by};

use crate::answer::{NoRecord, NotShown};

// The number or the line is not in the table; nothing can be shown from these bytes.
#[derive(Clone, Copy, Debug, PartialEq, Eq)]
pub enum NotSeen {
    UnknownNumber,
    Unshowable,
}

// The place is beyond the journal's records; nothing can be shown from these bytes.
#[derive(Clone, Copy, Debug, PartialEq, Eq)]
pub enum RecordNotSeen {
    Beyond,
    Unshowable,
}

// What a look does not show of a store that reads, its answer doesn't show either.
impl From<NotSeen> for NotShown {
    ghost from_gives = { λ l a. a ≡ answer_by l };

    fn from(look: NotSeen) -> NotShown {
        match look {
            NotSeen::UnknownNumber => NotShown::UnknownNumber,
            NotSeen::Unshowable => NotShown::Unreadable,
        }
    }
}

impl From<RecordNotSeen> for NoRecord {
    ghost from_gives = { λ l a. a ≡ record_answer_by l };

    fn from(look: RecordNotSeen) -> NoRecord {
        match look {
            RecordNotSeen::Beyond => NoRecord::Beyond,
            RecordNotSeen::Unshowable => NoRecord::Unreadable,
        }
    }
}
