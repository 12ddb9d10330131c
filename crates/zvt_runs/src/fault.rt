//! Why a run ends early.
ghost use Rattle.std.specs.Prelude.{◌≡◌, Bool};
ghost use Rattle.zvt_runs.specs.Faults.{by_book};
ghost use Rattle.zvt_runs.specs.declared.fault.EndFault.TheVariants.{Memory, Write};

use std::alloc::{AllocError, AllocFailed};
use thiserror::Error;
use zvt_io::Failed;
use zvt_stream::LineFault;

/// Why a connection could not be opened.
#[derive(Clone, Copy, Debug, Drop, PartialEq, Eq, Error)]
pub enum NetFault {
    /// No address was found for the host, for whatever reason.
    #[error("the host name has no address: check its spelling")]
    UnknownHost,
    /// The host exists, and nothing listens at the port.
    #[error("connection refused: check that the terminal is running, and its port")]
    Refused,
    #[error("the host is unreachable: check the network and the address")]
    Unreachable,
    /// The host did not respond within the till's timeout.
    #[error("the host did not respond: check its name or address")]
    Silent,
    #[error("the port is in use: stop the program that listens there, or give another port, or 0 for a free one")]
    InUse,
    #[error("cannot listen on an address of another machine: use one of this machine's addresses")]
    Elsewhere,
    #[error("permission denied for that port: give a port from 1024 on")]
    NotAllowed,
    #[error("check that the other end listens on that host and port, or that the port to listen on is free")]
    Other,
}

/// Why the run of one end of a line, or of both, ended early.
#[derive(Debug, Drop, Error)]
pub enum EndFault {
    /// The connection between till and terminal failed. The outcome of the order that ran was written, and the
    /// remaining steps were skipped.
    #[error("connection failed: {0}")]
    Line(LineFault),
    /// The terminal sent nothing within the till's timeout. Otherwise like `Line`.
    #[error("connection failed: the terminal sent nothing for {seconds} s. Check the terminal, or increase --timeout")]
    Silent { seconds: u16 },
    /// The trace could not be written to its end. The connection was given up at that point: after the last step, or
    /// during the order that ran, which ended as after a failed connection. All of the text was written.
    #[error("cannot write the trace file, so the run stopped: check its permissions and the free space")]
    Trace,
    /// The journal of the till's book could not be written. Nothing was sent from then on. The order that ran ended as
    /// after a failed connection. The book's file contains everything that happened before.
    #[error("cannot write the book; the run was stopped and nothing more was sent. Check the disk and its free \
        space, then inspect the file with 'zvt book'")]
    Book,
    /// A step did not succeed, in a run that checks that each does. All steps were made, and the total was written. The
    /// line of the step shows its outcome.
    #[error("a step did not succeed: its line shows the outcome")]
    Unsuccessful,
    /// The word at this index, counted from 0, names no step. Nothing was sent or written.
    #[error("invalid step {number}: expected 'register', 'pay:N', 'reverse:N', 'close' or, in 'zvt loop', \
        'decline:N:XX', where N is an amount in cents, as 'pay:1000' for 10.00, or the number of an entry; a \
        reference, as in 'pay:1000:ref=A-1009', has 1 to 40 printable characters and no space", number = from_one(.at))]
    BadStep { at: usize },
    /// There was no connection. Nothing was written.
    #[error("no connection: {0}")]
    Net(NetFault),
    /// The output could not be written. Some prefix of the text was.
    #[error("cannot write to standard output: check where it goes and the free space there")]
    Write,
    /// An allocation failed. The lines of all steps before the one that ran were written.
    #[error("out of memory")]
    Memory,
}

/// Returns the number of the word at this index.
fn from_one(at: &usize) -> u128 {
    *at as u128 + 1
}

impl From<AllocError> for EndFault {
    ghost from_gives = { λ _ fault. fault ≡ Memory };

    fn from(_refused: AllocError) -> EndFault {
        EndFault::Memory
    }
}

impl From<Failed> for EndFault {
    ghost from_gives = { λ _ fault. fault ≡ Write };

    fn from(_failed: Failed) -> EndFault {
        EndFault::Write
    }
}

/// Returns the result of a run, given whether the book failed during it.
pub(crate) fn by_book(failed: bool, answer: Result<(), EndFault>) -> Result<(), EndFault>
    ensures { result ≡ by_book failed answer }
{
    match answer {
        Ok(()) | Err(EndFault::Unsuccessful | EndFault::Line(_)) if failed => Err(EndFault::Book),
        answer => answer,
    }
}
