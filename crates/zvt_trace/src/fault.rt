//! The tally of a trace, and its faults.
ghost use Rattle.std.specs.Prelude.{◌≡◌};
ghost use Rattle.zvt_trace.specs.declared.fault.TraceFault.TheVariants.{Memory, Write};

use crate::listener::ListenerError;
use std::alloc::{AllocError, AllocFailed};
use std::fmt;
use thiserror::Error;
use zvt_io::Failed;

/// The number of complete messages, and of streams that were refused or cut off.
#[derive(Clone, Copy, Debug, PartialEq, Eq)]
pub struct Tally {
    pub messages: u64,
    pub bad: u64,
}

impl Tally {
    /// Creates a tally at zero.
    pub(crate) fn none() -> Tally
        ensures { (result.messages ≡ 0) × (result.bad ≡ 0) }
    {
        Tally {
            messages: 0,
            bad: 0,
        }
    }
}

/// What is wrong with a line of a trace.
#[derive(Clone, Copy, Debug, PartialEq, Eq)]
pub enum TraceLineError {
    /// The line is no piece, no comment and no loss.
    Form,
    /// The text after the direction is not hexadecimal.
    Hex,
}

impl fmt::Display for TraceLineError {
    ghost use Rattle.std.specs.Prelude.{Some};
    ghost use Rattle.zvt_trace.specs.Lines.{what_text};

    ghost output = { λ what. Some (what_text what) };

    fn fmt<W: fmt::Write>(&self, f: &mut fmt::Formatter<W>) -> fmt::Result {
        f.write_str(match self {
            TraceLineError::Form =>
                "expected '>' or '<' and hexadecimal digits, '!' alone, or a comment that begins with '#'",
            TraceLineError::Hex =>
                "expected two hexadecimal digits for each byte after '>' or '<', with or without spaces",
        })
    }
}

/// The reason why a command on a trace ended early. Output for earlier lines has already been written.
#[derive(Clone, Copy, Debug, Drop, Error)]
pub enum TraceFault {
    /// A line of the trace is not valid. Lines are counted from 1.
    #[error("line {line} of the trace: {what}")]
    Trace { line: u64, what: TraceLineError },
    /// Nothing was written.
    #[error("the trace has more than 16777216 bytes: split it after a line '!', or read it with --follow")]
    TooLong,
    /// Nothing was written.
    #[error("cannot read the rest of the trace: check the file, or the program that writes it")]
    Read,
    /// Some first part of the text was written.
    #[error("the output can't be written: check where standard output goes, and whether the device is full")]
    Write,
    /// The text of the lines before the one that was being read was written.
    #[error("out of memory: split the trace after a line '!', or read it with --follow")]
    Memory,
}

impl From<AllocError> for TraceFault {
    ghost from_gives = { λ _ fault. fault ≡ Memory };

    fn from(_refused: AllocError) -> TraceFault {
        TraceFault::Memory
    }
}

impl From<Failed> for TraceFault {
    ghost from_gives = { λ _ fault. fault ≡ Write };

    fn from(_failed: Failed) -> TraceFault {
        TraceFault::Write
    }
}

impl From<ListenerError> for TraceFault {
    ghost use Rattle.zvt_trace.specs.Listening.{fault_of};

    ghost from_gives = { λ failure fault. fault ≡ fault_of failure };

    fn from(failure: ListenerError) -> TraceFault {
        match failure {
            ListenerError::Memory => TraceFault::Memory,
            ListenerError::Write => TraceFault::Write,
        }
    }
}
