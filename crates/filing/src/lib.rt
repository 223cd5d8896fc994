// Filing: a file into the store, or a refusal that changes no byte (`file`). The checks (`checking`); the file's records join their journal
// (`entering`); its numbers are worked out afresh (`renewing`), and what is worked out fits its slot (`fitting`).
#![tactic(auto)]

pub mod checking;
pub mod entering;
pub mod file;
pub mod fitting;
pub mod renewing;
