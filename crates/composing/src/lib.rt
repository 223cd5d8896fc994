// Files of records written from plain words: measured first, then laid into a lent buffer.
#![tactic(auto)]

pub mod measure;
pub mod write;
