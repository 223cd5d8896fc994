// What a program asks of the system: std's handles for files, arguments and standard output, and what std gives the host alone.
use std::env::Env;
use std::fs::Files;
use std::io::IsTerminal;
use std::{io, process};

pub trait Host: Files + Env + Print {
    // Writes all the bytes to standard error, or fails. They need not be text.
    fn say(&self, bytes: &[u8]) -> io::Result<()>;

    // Whether standard error is a terminal.
    fn is_watched(&self) -> bool;

    // The number of this process.
    fn process_id(&self) -> u32;
}

impl Host for HostRuntime {
    fn say(&self, bytes: &[u8]) -> io::Result<()> {
        self.stderr().write_all(bytes)
    }

    fn is_watched(&self) -> bool {
        self.stderr().is_terminal()
    }

    fn process_id(&self) -> u32 {
        process::id(self.process())
    }
}
