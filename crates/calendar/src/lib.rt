// The calendar: dates and day numbers from 1998-01-01, day 0, to 2049-12-31, day 18992; holidays; working days.
#![tactic(auto)]

pub mod dates;
pub mod holidays;
pub mod table;
pub mod working_days;
