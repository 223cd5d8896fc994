// The fields that records are made of: each kind of field in a room of its own, with its values, its reader and its writer.
// A reader takes the whole field and answers its value or nothing; a writer lays the field into a lent
// buffer and answers the place behind it. What stands in a field that may be empty is an `Option`.
#![tactic(auto)]

pub mod code;
pub mod correction_code;
pub mod date;
pub mod gaining;
pub mod kind;
pub mod number;
