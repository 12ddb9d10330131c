//! The exit statuses.
ghost use Rattle.std.specs.Prelude.{◌≡◌};
ghost use Rattle.std.specs.IoError.{error_kind};
ghost use Rattle.zvt_tool.specs.Statuses.{status_of_bad, status_of_call, status_of_device, status_of_file_error};
ghost use Rattle.zvt_tool.specs.Statuses.{status_of_recovery, status_of_end_fault, status_of_found, status_of_run};
ghost use Rattle.zvt_tool.specs.Statuses.{status_of_trace_fault};

use std::io::{self, ErrorKind};
use zvt_audit::AuditSummary;
use zvt_journal::{DeviceError, JournalFileError};
use zvt_kept::RecoveryError;
use zvt_runs::EndFault;
use zvt_stream::LineFault;
use zvt_trace::TraceFault;

/// Everything was done, or help was requested.
pub const DONE: u8 = 0;

/// A stream of the trace was refused or cut off; or, with `--check`, a payment is unclear or a step did not succeed; or
/// the received bytes differ from the played trace.
pub const BAD: u8 = 1;

/// The command line or a step is wrong.
pub const WORDS: u8 = 2;

/// The input is not a trace or not a till's book.
pub const TRACE: u8 = 3;

/// A device, the line or the connection failed.
pub const DEVICE: u8 = 4;

/// An allocation failed.
pub const MEMORY: u8 = 5;

/// Returns the status of a command on a trace. A refused message that an audit passed over, and counted by its control
/// bytes, is not bad. With `check`, it is bad if a payment is unclear, or if an order moved money that the audit does
/// not follow.
pub fn of_found(check: bool, answer: &Result<AuditSummary, TraceFault>) -> u8
    ensures { result ≡ status_of_found check answer.now }
{
    match answer {
        Ok(found) if check && (found.unclear > 0 || !found.unfollowed.is_empty()) => BAD,
        Ok(found) => of_bad(found.tally.bad.saturating_sub(found.passed)),
        Err(fault) => of_trace_fault(fault),
    }
}

/// Returns the status of a run.
pub fn of_run(answer: &Result<(), EndFault>) -> u8
    ensures { result ≡ status_of_run answer.now }
{
    match answer {
        Ok(()) => DONE,
        Err(fault) => of_end_fault(fault),
    }
}

/// Returns the status for this number of bad streams.
fn of_bad(bad: u64) -> u8
    ensures { result ≡ status_of_bad bad }
{
    if bad == 0 { DONE } else { BAD }
}

/// Returns the status of a command on a trace that ended early.
fn of_trace_fault(fault: &TraceFault) -> u8
    ensures { result ≡ status_of_trace_fault fault.now }
{
    match fault {
        TraceFault::Trace { .. } | TraceFault::TooLong => TRACE,
        TraceFault::Read | TraceFault::Write => DEVICE,
        TraceFault::Memory => MEMORY,
    }
}

/// Returns the status of a run that ended early.
pub fn of_end_fault(fault: &EndFault) -> u8
    ensures { result ≡ status_of_end_fault fault.now }
{
    match fault {
        EndFault::Unsuccessful => BAD,
        EndFault::BadStep { .. } => WORDS,
        EndFault::Net(_) | EndFault::Trace | EndFault::Book | EndFault::Write => DEVICE,
        EndFault::Line(LineFault::Memory) | EndFault::Memory => MEMORY,
        EndFault::Line(_) | EndFault::Silent { .. } => DEVICE,
    }
}

/// Returns the status if the file of a book cannot be opened.
pub fn of_file_error(error: &JournalFileError) -> u8
    ensures { result ≡ status_of_file_error error.now }
{
    match error {
        JournalFileError::NotAJournal
        | JournalFileError::RecordsBehind { .. }
        | JournalFileError::TooMuchAfter { .. } => TRACE,
        JournalFileError::InUse
        | JournalFileError::Displaced
        | JournalFileError::Folder
        | JournalFileError::NotAFile => DEVICE,
        JournalFileError::CutNotKept(error)
        | JournalFileError::FolderNotSynced(error)
        | JournalFileError::Io(error) => of_call(error),
        JournalFileError::Memory => MEMORY,
    }
}

/// Returns the status of a failed call on a file.
fn of_call(error: &io::Error) -> u8
    ensures { result ≡ status_of_call (error_kind error.now) }
{
    match error.kind() {
        ErrorKind::OutOfMemory => MEMORY,
        _ => DEVICE,
    }
}

/// Returns the status if no till can be restored from a book.
pub fn of_recovery(error: RecoveryError) -> u8
    ensures { result ≡ status_of_recovery error }
{
    match error {
        RecoveryError::Opening
        | RecoveryError::Line { .. }
        | RecoveryError::Check { .. }
        | RecoveryError::Record { .. } => TRACE,
        RecoveryError::Memory => MEMORY,
    }
}

/// Returns the status if a book cannot be begun.
pub fn of_device(error: DeviceError) -> u8
    ensures { result ≡ status_of_device error }
{
    match error {
        DeviceError::Memory => MEMORY,
        DeviceError::Failed | DeviceError::Full => DEVICE,
    }
}
