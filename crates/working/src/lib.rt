// Numbers worked out afresh from the journals (`filed`): the keys of one number's records are gathered (`gather`), put in order and their records
// folded (`work`), up to a record's own point (`before`); many numbers from one pass (`indexing`), and all lines of the table (`overview`).
#![tactic(auto)]

pub mod before;
pub mod filed;
pub mod gather;
pub mod indexing;
pub mod overview;
pub mod work;
