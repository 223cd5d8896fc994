// All numbers worked out afresh from the journals, over all files or the first ones, with the list of those whose entry changes (`rework`);
// filing into such a store from then on (`resuming`).
#![tactic(auto)]

pub mod resuming;
pub mod rework;
