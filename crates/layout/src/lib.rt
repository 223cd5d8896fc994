// The records of the files, without their line ends: six fields with commas between them (a part), a report, a
// correction of two parts, a request. A reader takes the record's bytes and answers its value or a fault; a writer
// lays the record into a lent buffer and answers the place behind it.
#![tactic(auto)]

pub mod correction;
pub mod field;
pub mod part;
mod putting;
pub mod report;
pub mod request;
mod walk;
