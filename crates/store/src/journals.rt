// The list of the filed files, and the two journals that hold their records.
pub mod files;
pub mod records;
pub mod sums;
pub mod twice;
