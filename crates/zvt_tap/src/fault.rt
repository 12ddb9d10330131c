//! Why a relay ends early.
ghost use Rattle.std.specs.Prelude.{◌≡◌};
ghost use Rattle.zvt_tap.specs.declared.fault.TapFault.TheVariants.{Memory};

use std::alloc::{AllocError, AllocFailed};
use thiserror::Error;
use zvt_trace::Direction;

/// Why a relay ended before both sides had come to their end.
#[derive(Clone, Copy, Debug, Drop, PartialEq, Eq, Error)]
pub enum TapFault {
    /// This side could not be read.
    #[error("one side could not be read: check the network and the program there")]
    Read(Direction),
    /// What this side sent could not be written to the other side. Some prefix of the last chunk was written.
    #[error("one side accepts no more bytes: check the network and the program there")]
    Write(Direction),
    /// The trace could not be written without which the line may not go on. The last chunk was not passed on.
    #[error("the trace could not be written: free some disk space, or name another file")]
    Trace,
    /// The last chunk was neither observed nor passed on.
    #[error("out of memory")]
    Memory,
    /// No side can be waited for, or it was waited as often as can be counted.
    #[error("the system cannot wait for the two sides")]
    Wait,
}

impl From<AllocError> for TapFault {
    ghost from_gives = { λ _ fault. fault ≡ Memory };

    fn from(_refused: AllocError) -> TapFault {
        TapFault::Memory
    }
}
