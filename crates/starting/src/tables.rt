// The text of a number table: its lines read, laid out in room of their own, and judged there.
pub mod given;
pub mod scratch;
