// The records of files, by the kind of file: reports in default and response files, corrections, requests. A record is read from a line (`line`)
// and written from plain words (`words`). The closing record (`closing`); the kinds of files and their names (`names`).
#![tactic(auto)]

pub mod closing;
pub mod line;
pub mod names;
mod record;
pub mod words;
