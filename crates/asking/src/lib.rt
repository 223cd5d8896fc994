// What a store is asked: where a line stands (`stand`), a number's entry (`entry`), why (`why`, `pairs`), a record with its verdict (`record`), each
// as a look at any bytes that can be shown from (`looks`, `showable`); what a whole store answers, and the figure (`answering`). `answer` has the cases.
#![tactic(auto)]

pub mod answer;
pub mod answering;
pub mod entry;
pub mod looks;
pub mod pairs;
pub mod record;
pub mod showable;
pub mod stand;
pub mod why;
