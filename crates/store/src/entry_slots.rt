// The entries in a lent buffer: one slot of 100 bytes for each line of the number table.
pub mod entry;
pub mod place;
