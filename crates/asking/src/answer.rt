// Why an answer shows nothing. `Numbers` in specs/ gives each case its number in paper 01.

// The number is not in the table; the buffers do not read as a store.
#[derive(Clone, Copy, Debug, PartialEq, Eq)]
pub enum NotShown {
    UnknownNumber,
    Unreadable,
}

// The place is beyond the journal's records; the buffers do not read as a store.
#[derive(Clone, Copy, Debug, PartialEq, Eq)]
pub enum NoRecord {
    Beyond,
    Unreadable,
}

// The buffers do not read as a store.
#[derive(Clone, Copy, Debug, PartialEq, Eq)]
pub struct Unreadable;
