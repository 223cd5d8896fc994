// Lent buffers as heads and slots: runs of bytes, numbers in bytes, slots that hold a record's bytes, and sorted keys.
pub mod keys;
pub mod record;
pub mod run;
pub mod word;
