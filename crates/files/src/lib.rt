// Files of records: judged, and read place by place.
#![tactic(auto)]

pub mod judge;
pub mod read;
pub mod values;
