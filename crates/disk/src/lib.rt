// The store on disk: one file, STORE/store. A change is written beside it, to STORE/store.new, and takes its name once it is on the
// device, so that a crash leaves the old file or the new one. STORE/lock is there while a process changes the store.
#![tactic(auto)]

pub mod books;
pub mod head;
pub mod list;
pub mod lock;
pub mod parts;
pub mod saved;
pub mod sum;

pub use books::Books;
