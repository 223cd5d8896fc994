// The five buffers that a store lives in.
ghost use Rattle.std.specs.Prelude.{◌≡◌, replicate};

use store::journals::files::FILES_LENGTH;
use store::journals::records::{CORRECTIONS_LENGTH, REGULAR_LENGTH};
use store::numbers::lines::TABLE_LENGTH;
use store::readable::ENTRIES_LENGTH;

#[derive(Drop)]
pub struct Books {
    pub table: [u8; TABLE_LENGTH],
    pub files: [u8; FILES_LENGTH],
    pub regular: [u8; REGULAR_LENGTH],
    pub corrections: [u8; CORRECTIONS_LENGTH],
    pub entries: [u8; ENTRIES_LENGTH],
}

impl Books {
    // With nothing in them.
    pub fn empty() -> Books
        ensures table { result.table ≡ replicate TABLE_LENGTH 0 }
        ensures files { result.files ≡ replicate FILES_LENGTH 0 }
        ensures regular { result.regular ≡ replicate REGULAR_LENGTH 0 }
        ensures corrections { result.corrections ≡ replicate CORRECTIONS_LENGTH 0 }
        ensures entries { result.entries ≡ replicate ENTRIES_LENGTH 0 }
    {
        Books {
            table: [0; TABLE_LENGTH],
            files: [0; FILES_LENGTH],
            regular: [0; REGULAR_LENGTH],
            corrections: [0; CORRECTIONS_LENGTH],
            entries: [0; ENTRIES_LENGTH],
        }
    }
}
