// Starting a store (`start`) from a number table that is given as text: its lines read, laid out and judged (`tables`).
#![tactic(auto)]

pub mod start;
pub mod tables;
