// The store in five lent buffers, and whether they read as one (`readable`): numbers, records and keys in bytes (`slots`), the list of files and
// the two journals (`journals`), their records in their layouts (`records`), the number table (`numbers`), the entries (`entry_slots`).
#![tactic(auto)]

pub mod entry_slots;
pub mod journals;
pub mod numbers;
pub mod readable;
pub mod records;
pub mod slots;
