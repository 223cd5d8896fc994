// How a command ended.
#[derive(Clone, Copy, PartialEq, Eq)]
pub enum Failure {
    // something was refused
    Refused,
    // the command line, a file or the system is at fault
    Fault,
}

// All was done, or why not.
pub type Ended = Result<(), Failure>;
