// One pass over the journals for many numbers: the records that may name one of them are listed and grouped by the first field
// of the number that each names, and a number's records are then found in its group.
pub mod find;
pub mod index;
pub mod tags;
