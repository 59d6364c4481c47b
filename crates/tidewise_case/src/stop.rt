//! Why the cases weren't all run.

use hw_desk::NoMemory;
use std::alloc::AllocError;
use std::io;

/// Why the cases weren't all run.
#[derive(Debug, Drop)]
pub enum Stop {
    /// A line of a file has no form.
    Line { file: String, number: u64 },
    /// Memory ran out.
    NoMemory,
    /// A file couldn't be read, or the outcome couldn't be printed.
    Io(io::Error),
}

impl From<AllocError> for Stop {
    fn from(_e: AllocError) -> Stop {
        Stop::NoMemory
    }
}

impl From<NoMemory> for Stop {
    fn from(_e: NoMemory) -> Stop {
        Stop::NoMemory
    }
}

impl From<io::Error> for Stop {
    fn from(e: io::Error) -> Stop {
        Stop::Io(e)
    }
}
