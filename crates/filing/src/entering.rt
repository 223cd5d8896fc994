// A file's records join their journal, behind the stored ones.
pub mod enter;
pub mod kind;
