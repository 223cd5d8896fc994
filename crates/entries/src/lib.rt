// A number's entry by value: its holder, the last confirmed porting date, and the places for open reports (`entry`); a report on a number
// (`report`); the places searched, filled and freed (`places`); whether two entries are equal (`comparing`).
#![tactic(auto)]

pub mod comparing;
pub mod entry;
pub mod places;
pub mod report;
