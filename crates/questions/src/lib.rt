// The commands that ask what was filed and what the table says, files, show and figure, and the one that mends it: rework.
#![tactic(auto)]

pub mod asked;
pub mod compared;
pub mod figure;
pub mod listing;
pub mod named;
pub mod rework;
pub mod show;
pub mod table;
