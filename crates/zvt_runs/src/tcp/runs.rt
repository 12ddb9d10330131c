//! Runs of a till over TCP, and of both ends.
ghost use Rattle.std.specs.Prelude.{◌≡◌, ◌<◌, Err};
ghost use Rattle.zvt_stream.specs.LineReading.{reading_as};
ghost use Rattle.zvt_runs.specs.BothEnds.{BeginsHere, MakesHere};
ghost use Rattle.zvt_runs.specs.Reporting.{ReportsNothing, ReportsRun};
ghost use Rattle.zvt_runs.specs.Runs.{noting};
ghost use Rattle.zvt_runs.specs.TillEnd.{BeginsThere, MakesThere};
ghost use Rattle.zvt_runs.specs.OverTcp.{AnswersOverTcp};

use crate::tcp::connection::{both_ends, connect};
use crate::tcp::ends::{both_ends_of, is_broken, till_end_of, till_line_of};
use crate::tcp::options::{LoopRun, TillRun};
use crate::tcp::shown::shown_by;
use crate::tcp::silence::{by_silence, waited};
use crate::tcp::trace_file::by_trace;
use crate::{EndFault, NoteSource, StepRun, run_both_ends, run_till_end};
use std::alloc::Global;
use std::net::{Net, TcpListener, TcpStream};
use std::rt::Clock;
use zvt_grammar::Lengths;
use zvt_io::Sink;
use zvt_settle::Asker;
use zvt_till::Keeper;

/// Runs the steps between a till, alone or with a book, and a terminal in the same process. Listens on a free port of
/// 127.0.0.1 and connects to itself. The trace contains what the till received and sent.
///
/// Fails with `Net` before anything is written, reported or recorded. [`run_both_ends`] describes the other results.
pub fn run_loop<R, K, N, W, E>(
    rt: &R,
    alloc: Global,
    run: &LoopRun<'_, '_>,
    till: &mut K,
    notes: &N,
    writer: &mut W,
    report: &mut E,
) -> Result<(), EndFault>
where
    R: Net<Listener = TcpListener, Stream = TcpStream> + Clock,
    K: Keeper,
    N: NoteSource<K>,
    W: Sink,
    E: Sink,
    ensures run { AnswersOverTcp K.connects K.failed K.till
        (noting N.noted (MakesHere K.orders K.hears K.is_resting K.failed K.till K.loses K.malforms)) BeginsHere
        run.now.options run.now.plan.now till.old till.new (W.written writer.old) (W.written writer.new)
        (ReportsRun (E.written report.old) (E.written report.new) (E.failures report.old) (E.failures report.new))
        (ReportsNothing (E.written report.old) (E.written report.new) (E.failures report.old)
        (E.failures report.new)) result }
    ensures write { result ≡ Err EndFault.Write → W.failures writer.old < W.failures writer.new }
{
    let steps = StepRun {
        plan: run.plan,
        options: run.options,
    };
    let (till_end, terminal_end) = both_ends(rt).map_err(EndFault::Net)?;
    let end = till_end_of(rt, alloc, &till_end, Lengths::Shortest, run.trace)?;
    let mut line = both_ends_of(alloc, end, &terminal_end);
    let answer = run_both_ends(alloc, &mut line, till, notes, &steps, writer, report);
    by_trace(is_broken(rt, alloc, &line.till, run.trace), answer)
}

/// Connects a till, alone or with a book, to its terminal, and runs the steps. Each order has 100,000 reads. The trace
/// contains what the till received and sent: a line for each read and each write, and `!` at the end. The terminal's
/// messages may be shown as they arrive; if they cannot be shown, this is not a fault of the run.
///
/// Fails with `Net` before anything is written, reported or recorded. Fails with `Silent` if a read timed out, and with
/// `Trace` if the trace cannot be written. [`run_till_end`] describes the other results.
pub fn run_till<R, K, N, W, E>(
    rt: &R,
    alloc: Global,
    run: &TillRun<'_, '_>,
    till: &mut K,
    notes: &N,
    writer: &mut W,
    report: &mut E,
) -> Result<(), EndFault>
where
    R: Net<Listener = TcpListener, Stream = TcpStream> + Clock,
    K: Asker,
    N: NoteSource<K>,
    W: Sink,
    E: Sink,
    ensures run { AnswersOverTcp K.connects K.failed K.till
        (noting N.noted (MakesThere K.orders K.hears K.is_resting K.failed K.till K.loses K.malforms K.asks K.settling))
        (BeginsThere (reading_as run.now.line)) run.now.options run.now.plan.now till.old till.new
        (W.written writer.old) (W.written writer.new)
        (ReportsRun (E.written report.old) (E.written report.new) (E.failures report.old) (E.failures report.new))
        (ReportsNothing (E.written report.old) (E.written report.new) (E.failures report.old)
        (E.failures report.new)) result }
    ensures write { result ≡ Err EndFault.Write → W.failures writer.old < W.failures writer.new }
{
    let steps = StepRun {
        plan: run.plan,
        options: run.options,
    };
    let end = connect(rt, run.host, run.port, run.seconds).map_err(EndFault::Net)?;
    let shown = shown_by(alloc, run.options.form, run.line, run.show);
    let mut line = till_line_of(rt, alloc, &end, run.line, run.trace, shown)?;
    let answer = run_till_end(alloc, &mut line, till, notes, &steps, writer, report);
    let answer = by_trace(is_broken(rt, alloc, &line, run.trace), answer);
    by_silence(waited(&line, run.seconds), answer)
}
