// The first fault of a record: in which field, and why. A field is known by its "Pos." in the specification's own table (4.5.1, 4.5.2.3, 4.7.8).
#![tactic(auto)]

pub mod cause;
pub mod cut;
mod field;
pub mod record;
mod six;
