//! Why a command on a trace, or a run, ended early.
ghost use Rattle.std.specs.Prelude.{◌≡◌};
ghost use Rattle.zvt_tool.specs.Faults.{fault_of_run, fault_of_trace, in_run, in_trace};

use thiserror::Error;
use zvt_runs::EndFault;
use zvt_stream::LineFault;
use zvt_trace::{Tally, TraceFault, TraceLineError};

/// Why a command on a trace, or a run, ended early: one type over [`TraceFault`] and [`EndFault`].
///
/// The other two types say more: why there is no connection, and what to do about each fault.
#[derive(Debug, Drop, Error)]
pub enum ToolFault {
    /// A line of the trace, counted from 1, cannot be read.
    #[error("line {line} of the trace: {what}")]
    Trace { line: u64, what: TraceLineError },
    /// The trace is longer than 16,777,216 bytes.
    #[error("the trace is too long")]
    TooLong,
    #[error("cannot read the rest of the trace")]
    Read,
    #[error("the output can't be written")]
    Write,
    #[error("out of memory")]
    Memory,
    #[error("connection failed: {0}")]
    Line(LineFault),
    /// The word at this index, counted from 0, names no step.
    #[error("a word names no step")]
    BadStep { at: usize },
    #[error("no connection")]
    Net,
    /// The terminal sent nothing within the till's timeout.
    #[error("connection failed: the terminal sent nothing for {seconds} s")]
    Silent { seconds: u16 },
    /// The file of a run's trace cannot be written.
    #[error("the trace file can't be written")]
    TraceFile,
    /// The journal of the till's book cannot be written.
    #[error("the book can't be written")]
    Book,
    /// A step did not succeed, in a run that checks that each does. All steps were made.
    #[error("a step did not succeed")]
    Unsuccessful,
}

impl From<TraceFault> for ToolFault {
    ghost from_gives = { λ given fault. fault ≡ fault_of_trace given };

    fn from(fault: TraceFault) -> ToolFault {
        match fault {
            TraceFault::Trace { line, what } => ToolFault::Trace { line, what },
            TraceFault::TooLong => ToolFault::TooLong,
            TraceFault::Read => ToolFault::Read,
            TraceFault::Write => ToolFault::Write,
            TraceFault::Memory => ToolFault::Memory,
        }
    }
}

impl From<EndFault> for ToolFault {
    ghost from_gives = { λ given fault. fault ≡ fault_of_run given };

    fn from(fault: EndFault) -> ToolFault {
        match fault {
            EndFault::Line(fault) => ToolFault::Line(fault),
            EndFault::Silent { seconds } => ToolFault::Silent { seconds },
            EndFault::Trace => ToolFault::TraceFile,
            EndFault::Book => ToolFault::Book,
            EndFault::Unsuccessful => ToolFault::Unsuccessful,
            EndFault::BadStep { at } => ToolFault::BadStep { at },
            EndFault::Net(_) => ToolFault::Net,
            EndFault::Write => ToolFault::Write,
            EndFault::Memory => ToolFault::Memory,
        }
    }
}

/// Returns the result of a command on a trace, with its fault as a `ToolFault`.
pub(crate) fn in_trace(answer: Result<Tally, TraceFault>) -> Result<Tally, ToolFault>
    ensures { result ≡ in_trace answer }
{
    match answer {
        Ok(tally) => Ok(tally),
        Err(fault) => Err(ToolFault::from(fault)),
    }
}

/// Returns the result of a run, with its fault as a `ToolFault`.
pub(crate) fn in_run(answer: Result<(), EndFault>) -> Result<(), ToolFault>
    ensures { result ≡ in_run answer }
{
    match answer {
        Ok(()) => Ok(()),
        Err(fault) => Err(ToolFault::from(fault)),
    }
}
