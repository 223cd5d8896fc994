// Dagskimra for programs in other languages: functions on numbers and byte slices, which crate capi_c exports under their plain names.
// include/dagskimra.h tells what each means to a C program.
#![tactic(auto)]

pub mod again;
pub mod ask;
pub mod begin;
pub mod days;
pub mod kinds;
pub mod offer;
pub mod reading;
pub mod show;
mod told;
pub mod writing;
