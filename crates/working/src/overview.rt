// All lines of the number table from one pass over the journals.
pub mod lines;
