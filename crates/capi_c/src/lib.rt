// The archive for C: each function of crate capi, exported under its plain name, with the same clauses. include/dagskimra.h tells what each means to a C
// program.
#![tactic(auto)]

pub mod again;
pub mod ask;
pub mod begin;
pub mod days;
pub mod offer;
pub mod reading;
pub mod show;
pub mod writing;
