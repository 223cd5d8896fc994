// The commands that need no answer from a store: start, read. And what every command does: open the store, and end.
// The lines on standard output are tab separated.
#![tactic(auto)]

pub mod arrivals;
pub mod end;
pub mod fault;
pub mod given;
pub mod opened;
pub mod read;
pub mod start;

// The longest file that is read, and a byte, by which a longer one is known.
pub const LONGEST: usize = 2097153;
