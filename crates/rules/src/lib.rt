// What the bytes of a record say: the number that it names, its class within a day, and what the verdicts take.
#![tactic(auto)]

pub mod records;
