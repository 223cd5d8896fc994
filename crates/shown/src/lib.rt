// What is printed, piece by piece, and what is read from the command line.
#![tactic(auto)]

pub mod entry;
pub mod number;
pub mod piece;

// A value as it is printed: `{}` writes it.
#[derive(Drop)]
pub struct Shown<T: Drop>(pub T);
