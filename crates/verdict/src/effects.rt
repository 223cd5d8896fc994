// What a verdict does to a number's entry.
pub mod corrections;
pub mod reports;
