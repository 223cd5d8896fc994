// One record of a number's history after the other (`step`): the verdicts (`verdicts`), what the table on reports asks (`report_tests`), the two
// tables (`report_rules`, `correction_rules`), what a verdict does to the entry (`effects`), and the pair that confirmed last.
#![tactic(auto)]

pub mod correction_rules;
pub mod effects;
pub mod report_rules;
pub mod report_tests;
pub mod step;
mod table;
pub mod verdicts;
