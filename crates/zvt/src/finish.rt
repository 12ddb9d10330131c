//! Reports how a command or a run ended, and returns its exit status.
ghost use Rattle.std.specs.Prelude.{◌≡◌, IfOk};
ghost use Rattle.zvt_tool.specs.Statuses.{status_of_end_fault, status_of_found, status_of_run};

use crate::reports::{report, report_on};
use std::fmt::Display;
use std::io;
use zvt_audit::AuditSummary;
use zvt_runs::EndFault;
use zvt_tool::statuses;
use zvt_trace::TraceFault;

/// Returns the exit status of a command on a trace, which may check that no payment is unclear. Reports a fault, with
/// the file if there is one, unless the reader of the output disconnected.
pub fn finish_trace(
    rt: &HostRuntime,
    file: Option<&str>,
    broken_pipe: bool,
    check: bool,
    answer: Result<AuditSummary, TraceFault>,
) -> io::Result<u8>
    ensures { IfOk result (λ status. status ≡ status_of_found check answer) }
{
    let status = statuses::of_found(check, &answer);
    match answer {
        Ok(_) => {}
        Err(TraceFault::Write) if broken_pipe => {}
        Err(TraceFault::Write) => report(rt, TraceFault::Write)?,
        Err(fault) => report_fault(rt, file, fault)?,
    }
    Ok(status)
}

/// Returns the exit status if a word names no step, and reports that word.
pub fn finish_plan(rt: &HostRuntime, words: &[&str], fault: EndFault) -> io::Result<u8>
    ensures { IfOk result (λ status. status ≡ status_of_end_fault fault) }
{
    let status = statuses::of_end_fault(&fault);
    let word = word_of(&fault, words);
    report_fault(rt, word, fault)?;
    Ok(status)
}

/// Returns the exit status of a run. Reports a fault, unless the reader of the output disconnected.
pub fn finish_run(
    rt: &HostRuntime,
    broken_pipe: bool,
    answer: Result<(), EndFault>,
) -> io::Result<u8>
    ensures { IfOk result (λ status. status ≡ status_of_run answer) }
{
    let status = statuses::of_run(&answer);
    match answer {
        Ok(()) => {}
        Err(EndFault::Write) if broken_pipe => {}
        Err(fault) => report(rt, fault)?,
    }
    Ok(status)
}

/// Reports the fault, after the file or the argument that it concerns.
fn report_fault<T: Display + Drop>(
    rt: &HostRuntime,
    word: Option<&str>,
    fault: T,
) -> io::Result<()> {
    match word {
        Some(word) => report_on(rt, word, fault),
        None => report(rt, fault),
    }
}

/// Returns the argument that the fault concerns, if any.
fn word_of<'a>(fault: &EndFault, words: &[&'a str]) -> Option<&'a str> {
    match fault {
        EndFault::BadStep { at } => words.get(*at).copied(),
        _ => None,
    }
}
