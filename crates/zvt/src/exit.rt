//! The end of a command that could not be completed.
use std::alloc::{AllocError, AllocFailed};
use std::io;

/// Why a command could not be completed.
#[derive(Drop)]
pub enum Exit {
    /// A fault was reported, and this is the exit status.
    Status(u8),
    /// Help, a report or the output could not be written.
    Failed(io::Error),
}

impl From<io::Error> for Exit {
    fn from(error: io::Error) -> Exit {
        Exit::Failed(error)
    }
}

impl From<AllocError> for Exit {
    fn from(refused: AllocError) -> Exit {
        Exit::Failed(io::Error::from(refused))
    }
}

impl<T: Drop> From<AllocFailed<T>> for Exit {
    fn from(refused: AllocFailed<T>) -> Exit {
        Exit::Failed(io::Error::from(refused))
    }
}
