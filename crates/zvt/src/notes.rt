//! Reports about bad streams of a trace, on standard error.
ghost use Rattle.std.specs.Prelude.{◌≡◌, ◌≤◌, length};
ghost use Rattle.zvt_trace.specs.Written.{limit};
ghost use Rattle.zvt.specs.Notes.{scope_of, faulty_line};

use crate::inputs::Input;
use crate::reports::{report, report_tally};
use std::fmt;
use std::io::{self, ErrorKind, Write};
use zvt_audit::{AuditSummary, UnfollowedOrder};
use zvt_grammar::Lengths;
use zvt_io::Over;
use zvt_show::diagnostics::{hint_on, write_notes};
use zvt_text::command_name;
use zvt_tool::trace_command::{TraceCommand, TraceWork};
use zvt_trace::{ListenerError, Scope, Tally, TraceFault};

/// Reports bad streams, a trace without messages, directions that may be swapped, and orders that the audit does not
/// follow. A report says all this itself. Returns whether memory sufficed.
pub fn report_notes(
    rt: &HostRuntime,
    command: &TraceCommand<'_>,
    input: Input<'_>,
    trace: &[u8],
    answer: &Result<AuditSummary, TraceFault>,
) -> io::Result<bool>
    requires { length trace.now ≤ limit }
{
    let Some(scope) = scope_of(command) else {
        return Ok(true);
    };
    if matches!(command.work, TraceWork::Report { .. }) {
        return Ok(true);
    }
    let mut errors = input.errors(rt.alloc(), rt.stderr())?;
    let is_bad = match answer {
        Ok(found) => found.tally.bad > 0,
        Err(TraceFault::Trace { .. }) => true,
        Err(_) => false,
    };
    if is_bad && !report_bad_streams(rt, input, scope, command.lengths, trace)? {
        return Ok(false);
    }
    if let Ok(found) = answer {
        if !is_bad && found.tally.messages == 0 && !input.is_null_device() {
            errors.write_all(b"zvt: the trace contains no message\n")?;
        }
        if found.swapped {
            errors.write_all(
                b"zvt: only '<' sent orders: the directions of the trace may be swapped\n",
            )?;
        }
        write_unfollowed(
            &mut errors,
            Counted::LinesOfTrace,
            found.unfollowed.as_slice(),
        )?;
    }
    Ok(true)
}

/// The advice after the notes about orders that the audit does not follow.
pub const UNFOLLOWED: &str =
    "the books lack the money of such orders: look at them and at their answers in 'zvt show --open'";

/// What an audit counts to say where an order is.
#[derive(Clone, Copy)]
pub enum Counted {
    LinesOfTrace,
    ChunksOfConnection,
}

/// A note about an order that the audit does not follow.
#[derive(Clone, Copy)]
pub struct OrderNote {
    order: UnfollowedOrder,
    counted: Counted,
}

impl OrderNote {
    /// Returns the note about an order whose place is counted like this.
    pub fn of(order: &UnfollowedOrder, counted: Counted) -> OrderNote {
        OrderNote {
            order: *order,
            counted,
        }
    }
}

impl fmt::Display for OrderNote {
    fn fmt<W: fmt::Write>(&self, f: &mut fmt::Formatter<W>) -> fmt::Result {
        let UnfollowedOrder {
            line,
            high,
            low,
            approved,
        } = self.order;
        let name = command_name(high, low).unwrap_or("payment without one amount");
        match self.counted {
            Counted::LinesOfTrace => write!(f, "line {line} of the trace")?,
            Counted::ChunksOfConnection => write!(f, "chunk {line} of the connection")?,
        }
        write!(f, ": {high:02X} {low:02X} ({name}) is not followed")?;
        let Some(approval) = approved else {
            return Ok(());
        };
        write!(f, "; approved {}", approval.amount.get())?;
        match approval.trace {
            Some(trace) => write!(f, ", trace {:06}", trace.get()),
            None => Ok(()),
        }
    }
}

/// Reports how much of a followed trace is bad, and which orders were not followed.
pub fn report_counts(
    rt: &HostRuntime,
    answer: &Result<AuditSummary, TraceFault>,
) -> io::Result<()> {
    let Ok(found) = answer else {
        return Ok(());
    };
    if found.tally.bad > 0 {
        report_tally(rt, found.tally)?;
    } else if found.tally.messages == 0 {
        report(rt, "the trace contains no message")?;
    }
    let orders = found.unfollowed.as_slice();
    write_unfollowed(&mut rt.stderr(), Counted::LinesOfTrace, orders)
}

/// Writes a line for each order that an audit does not follow, and then what to do about them.
pub fn write_unfollowed<W: Write>(
    errors: &mut W,
    counted: Counted,
    orders: &[UnfollowedOrder],
) -> io::Result<()> {
    if orders.is_empty() {
        return Ok(());
    }
    for order in orders {
        let note = OrderNote::of(order, counted);
        writeln!(errors, "zvt: {note}")?;
    }
    writeln!(errors, "zvt: {UNFOLLOWED}")
}

/// Returns the line of the trace, counted from 1, that cannot be read, if that is why the command ended.
pub fn faulty_line(
    command: &TraceCommand<'_>,
    answer: &Result<AuditSummary, TraceFault>,
) -> Option<u64>
    ensures { result ≡ faulty_line command.now answer.now }
{
    match answer {
        Err(TraceFault::Trace { line, .. }) if scope_of(command).is_some() => Some(*line),
        _ => None,
    }
}

/// Reports why that line cannot be read.
pub fn report_hint(
    rt: &HostRuntime,
    input: Input<'_>,
    trace: &[u8],
    line: Option<u64>,
) -> io::Result<()> {
    let Some(line) = line else {
        return Ok(());
    };
    match hint_on(trace, line) {
        Some(hint) => writeln!(input.errors(rt.alloc(), rt.stderr())?, "zvt: {hint}"),
        None => Ok(()),
    }
}

/// Returns how much the command skips after a refusal, if it reads messages of a line.
fn scope_of(command: &TraceCommand<'_>) -> Option<Scope>
    ensures { result ≡ scope_of command.now }
{
    match command.work {
        TraceWork::Render(_) | TraceWork::Audit(_) | TraceWork::Report { .. } => {
            Some(command.scope())
        }
        TraceWork::Vectors(_) => None,
    }
}

/// Reports the bad streams of the trace, or that memory ran out. Returns whether memory sufficed.
fn report_bad_streams(
    rt: &HostRuntime,
    input: Input<'_>,
    scope: Scope,
    lengths: Lengths,
    trace: &[u8],
) -> io::Result<bool>
    requires { length trace.now ≤ limit }
{
    let mut device = Over::new(input.errors(rt.alloc(), rt.stderr())?);
    match write_notes(rt.alloc(), scope, lengths, trace, &mut device) {
        Ok(()) => Ok(true),
        Err(ListenerError::Memory) => {
            report(rt, TraceFault::Memory)?;
            Ok(false)
        }
        Err(ListenerError::Write) if device.inner.out_of_memory => {
            Err(io::Error::from(ErrorKind::OutOfMemory))
        }
        Err(ListenerError::Write) => Err(io::Error::from(ErrorKind::Other)),
    }
}
