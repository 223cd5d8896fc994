// The number table in a lent buffer: a count, and a line of 14 bytes for each number.
pub mod find;
pub mod lines;
pub mod twice;
