//! The commands on a trace.
ghost use Rattle.std.specs.Prelude.{◌≡◌, ◌<◌, ◌≤◌, false, length, map, [], Err, IfOk};
ghost use Rattle.zvt_grammar.specs.Lengths.{reading_of};
ghost use Rattle.zvt_trace.specs.Written.{limit};
ghost use Rattle.zvt_report.specs.Files.{AnswersAdded};
ghost use Rattle.zvt_tool.specs.TraceCommands.{work_scope};
ghost use Rattle.zvt_tool.specs.OnTrace.{AnswersOnTrace, FollowsTrace, file_name, report_of, tally_of};

use crate::trace_command::{TraceCommand, TraceWork};
use crate::vector_check::vectors;
use std::alloc::Global;
use zvt_audit::{AuditSummary, audit_trace, follow_audit};
use zvt_io::{Over, Sink, Source};
use zvt_report::{FilesPage, ReportSummary, Zone, read_report, write_report};
use zvt_show::{follow_trace, render_trace};
use zvt_trace::{Tally, TraceFault};

/// Executes the command on the trace and writes its output.
///
/// Returns the counts of messages and bad streams and, for an audit, of unclear payments. For a report, the cases that
/// someone must act on are counted in their place.
pub fn work_on_trace<W: Sink>(
    alloc: Global,
    command: &TraceCommand<'_>,
    trace: &[u8],
    writer: &mut W,
) -> Result<AuditSummary, TraceFault>
    requires { length trace.now ≤ limit }
    ensures writes { AnswersOnTrace command.now trace.now (W.written writer.old) (W.written writer.new) result }
    ensures write { result ≡ Err TraceFault.Write → W.failures writer.old < W.failures writer.new }
{
    let scope = command.scope();
    let lengths = command.lengths;
    match command.work {
        TraceWork::Render(style) => {
            found(
                alloc,
                render_trace(alloc, style, command.times, scope, lengths, trace, writer),
            )
        }
        TraceWork::Audit(form) => audit_trace(alloc, form, scope, lengths, trace, writer),
        TraceWork::Report { form, zone, .. } => {
            let name = file_name(command);
            reported(
                alloc,
                write_report(alloc, form, zone, name, scope, lengths, trace, writer),
            )
        }
        TraceWork::Vectors(form) => {
            found(alloc, vectors(alloc, form, &mut Over::new(trace), writer))
        }
    }
}

/// Executes the command on the reader's trace while it arrives. Vectors and the trace of a report are read completely
/// first.
pub fn follow_work<R: Source, W: Sink>(
    alloc: Global,
    command: &TraceCommand<'_>,
    reader: &mut R,
    writer: &mut W,
) -> Result<AuditSummary, TraceFault>
    ensures follows { FollowsTrace command.now (R.remaining reader.old) (R.remaining reader.new) (W.written writer.old)
        (W.written writer.new) result }
    ensures read { result ≡ Err TraceFault.Read → R.failures reader.old < R.failures reader.new }
    ensures write { result ≡ Err TraceFault.Write → W.failures writer.old < W.failures writer.new }
{
    let scope = command.scope();
    let lengths = command.lengths;
    match command.work {
        TraceWork::Render(style) => {
            found(
                alloc,
                follow_trace(alloc, style, scope, lengths, reader, writer),
            )
        }
        TraceWork::Audit(form) => follow_audit(alloc, form, scope, lengths, reader, writer),
        TraceWork::Report { form, zone, .. } => {
            let name = file_name(command);
            reported(
                alloc,
                read_report(alloc, form, zone, name, scope, lengths, reader, writer),
            )
        }
        TraceWork::Vectors(form) => found(alloc, vectors(alloc, form, reader, writer)),
    }
}

/// Adds the report on a trace to a page, as the file with this name at this place, counted from 1. The command says how
/// the trace is read.
///
/// Returns the same as [`work_on_trace`]. Fails as [`FilesPage::add`] does.
pub fn add_to_page(
    alloc: Global,
    command: &TraceCommand<'_>,
    zone: Zone,
    page: &mut FilesPage,
    place: usize,
    name: &str,
    trace: &[u8],
) -> Result<AuditSummary, TraceFault>
    requires { length trace.now ≤ limit }
    ensures { AnswersAdded (reading_of command.now.lengths) (work_scope command.now.work command.now.reads_on) zone
        place name.now trace.now page.old page.new (report_of result) }
{
    let scope = command.scope();
    let lengths = command.lengths;
    reported(
        alloc,
        page.add(zone, place, name.as_bytes(), scope, lengths, trace),
    )
}

/// Returns the name of the command's first file. Standard input has none.
fn file_name<'a>(command: &TraceCommand<'a>) -> &'a [u8]
    ensures { result.now ≡ file_name (map (λ file. file.now) command.now.files.items) }
{
    match command.files.first() {
        Some(file) if *file != "-" => file.as_bytes(),
        _ => b"",
    }
}

/// Returns the result of a report, with the cases to act on in the place of unclear payments.
fn reported(
    alloc: Global,
    answer: Result<ReportSummary, TraceFault>,
) -> Result<AuditSummary, TraceFault>
    ensures report { report_of result ≡ answer }
    ensures swapped { IfOk result (λ found. found.swapped ≡ false) }
    ensures unfollowed { IfOk result (λ found. found.unfollowed.items ≡ []) }
    ensures none { IfOk result (λ found. found.total ≡ 0) }
{
    match answer {
        Ok(report) => Ok(AuditSummary {
            tally: report.tally,
            total: 0,
            unclear: report.acts,
            swapped: false,
            unfollowed: Vec::new(alloc),
            passed: report.passed,
        }),
        Err(fault) => Err(fault),
    }
}

/// Returns the result of a command that does not look at payments.
fn found(alloc: Global, answer: Result<Tally, TraceFault>) -> Result<AuditSummary, TraceFault>
    ensures tally { tally_of result ≡ answer }
    ensures swapped { IfOk result (λ found. found.swapped ≡ false) }
    ensures unfollowed { IfOk result (λ found. found.unfollowed.items ≡ []) }
    ensures none { IfOk result (λ found. (found.total ≡ 0) × (found.unclear ≡ 0) × (found.passed ≡ 0)) }
{
    match answer {
        Ok(tally) => Ok(AuditSummary {
            tally,
            total: 0,
            unclear: 0,
            swapped: false,
            unfollowed: Vec::new(alloc),
            passed: 0,
        }),
        Err(fault) => Err(fault),
    }
}
