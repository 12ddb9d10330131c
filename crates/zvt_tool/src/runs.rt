//! Runs of the steps that words name, over TCP.
ghost use Rattle.std.specs.Prelude.{◌≡◌, ◌<◌, ◌≤◌, Err, map, None};
ghost use Rattle.zvt_grammar.specs.Lengths.{reading_of};
ghost use Rattle.zvt_stream.specs.LineReading.{reading_as, strictly};
ghost use Rattle.zvt_runs.specs.BothEnds.{BeginsHere, MakesHereAlone};
ghost use Rattle.zvt_runs.specs.Reporting.{ReportsNothing, ReportsRun};
ghost use Rattle.zvt_runs.specs.TillEnd.{BeginsThere, MakesThereAlone};
ghost use Rattle.zvt_runs.specs.declared.arguments.Ends.TheVariants.{Both, Till};
ghost use Rattle.zvt_runs.specs.OverTcp.{AnswersRun};
ghost use Rattle.zvt_till.specs.Events.{run_settings};
ghost use Rattle.zvt_tool.specs.Options.{lengths_by};
ghost use Rattle.zvt_tool.specs.Faults.{MakesWords, ServesOne, plain};

use crate::fault::{ToolFault, in_run};
use crate::options::lengths_by;
use std::alloc::Global;
use std::net::{Net, TcpListener, TcpStream};
use std::rt::Clock;
use zvt_io::{Failed, Sink};
use zvt_runs::tcp::{LoopRun, PATIENCE_SECONDS, TerminalRun, TillRun};
use zvt_runs::{EndFault, Ends, NoNotes, StepOptions, plan};
use zvt_settle::SettlingTill;
use zvt_stream::LineForm;
use zvt_term::{Extras, Verdict};
use zvt_text::Form;

/// The address on which a terminal listens.
const LOCAL_HOST: &str = "127.0.0.1";

/// A device that discards the reports of a run.
#[derive(Drop)]
struct Unreported;

impl Sink for Unreported {
    ghost written = { λ _. None };

    ghost failures = { λ _. 0 };

    fn write_all(&mut self, _bytes: &[u8]) -> Result<(), Failed> {
        Ok(())
    }
}

/// Returns the options of a run that writes text and does not check its steps.
fn plain() -> StepOptions
    ensures { result ≡ plain }
{
    StepOptions {
        form: Form::Text,
        check: false,
    }
}

/// Runs steps between a till and a terminal in this process, like [`zvt_runs::tcp::run_loop`]. Without words, runs the
/// default steps.
///
/// Fails with `BadStep` or `Net` before anything is written.
pub fn run_loop<R, W>(
    rt: &R,
    alloc: Global,
    steps: &[&str],
    writer: &mut W,
) -> Result<(), ToolFault>
where
    R: Net<Listener = TcpListener, Stream = TcpStream> + Clock,
    W: Sink,
    ensures run { MakesWords Both (map (λ word. word.now) steps.now) (W.written writer.old) (W.written writer.new)
        (λ plan answer. AnswersRun MakesHereAlone BeginsHere run_settings plain plan (W.written writer.old)
        (W.written writer.new) (ReportsRun None None 0 0) (ReportsNothing None None 0 0) answer) result }
    ensures write { result ≡ Err ToolFault.Write → W.failures writer.old < W.failures writer.new }
{
    let planned = match plan(alloc, Ends::Both, steps) {
        Ok(planned) => planned,
        Err(fault) => return Err(ToolFault::from(fault)),
    };
    let run = LoopRun {
        trace: None,
        plan: planned.as_slice(),
        options: plain(),
    };
    in_run(loop_alone(rt, alloc, &run, writer))
}

/// Connects a till to its terminal and runs the steps that the words name, like [`zvt_runs::tcp::run_till`]. The till
/// has the default settings and timeout. With `loose`, it accepts lengths in any form.
///
/// Fails with `BadStep` or `Net` before anything is written.
pub fn run_till<R, W>(
    rt: &R,
    alloc: Global,
    host: &str,
    port: u16,
    steps: &[&str],
    writer: &mut W,
    loose: bool,
) -> Result<(), ToolFault>
where
    R: Net<Listener = TcpListener, Stream = TcpStream> + Clock,
    W: Sink,
    ensures run { MakesWords Till (map (λ word. word.now) steps.now) (W.written writer.old) (W.written writer.new)
        (λ plan answer. AnswersRun MakesThereAlone (BeginsThere (strictly (reading_of (lengths_by loose))))
        run_settings plain plan (W.written writer.old) (W.written writer.new) (ReportsRun None None 0 0)
        (ReportsNothing None None 0 0) answer) result }
    ensures write { result ≡ Err ToolFault.Write → W.failures writer.old < W.failures writer.new }
{
    let planned = match plan(alloc, Ends::Till, steps) {
        Ok(planned) => planned,
        Err(fault) => return Err(ToolFault::from(fault)),
    };
    let run = TillRun {
        host,
        port,
        seconds: PATIENCE_SECONDS,
        line: LineForm {
            lengths: lengths_by(loose),
            passes: false,
        },
        trace: None,
        show: None,
        plan: planned.as_slice(),
        options: plain(),
    };
    in_run(till_alone(rt, alloc, &run, writer))
}

/// Runs steps between a new till without a book and a terminal in this process.
fn loop_alone<R, W>(
    rt: &R,
    alloc: Global,
    run: &LoopRun<'_, '_>,
    writer: &mut W,
) -> Result<(), EndFault>
where
    R: Net<Listener = TcpListener, Stream = TcpStream> + Clock,
    W: Sink,
    ensures run { AnswersRun MakesHereAlone BeginsHere run_settings run.now.options run.now.plan.now
        (W.written writer.old) (W.written writer.new)
        (ReportsRun None None 0 0) (ReportsNothing None None 0 0) result }
    ensures write { result ≡ Err EndFault.Write → W.failures writer.old < W.failures writer.new }
{
    let mut till = SettlingTill::new(alloc, zvt_till::Till::with_defaults(alloc));
    zvt_runs::tcp::run_loop(rt, alloc, run, &mut till, &NoNotes, writer, &mut Unreported)
}

/// Connects a new till without a book to its terminal and runs the steps.
fn till_alone<R, W>(
    rt: &R,
    alloc: Global,
    run: &TillRun<'_, '_>,
    writer: &mut W,
) -> Result<(), EndFault>
where
    R: Net<Listener = TcpListener, Stream = TcpStream> + Clock,
    W: Sink,
    ensures run { AnswersRun MakesThereAlone (BeginsThere (reading_as run.now.line)) run_settings run.now.options
        run.now.plan.now (W.written writer.old) (W.written writer.new)
        (ReportsRun None None 0 0) (ReportsNothing None None 0 0) result }
    ensures write { result ≡ Err EndFault.Write → W.failures writer.old < W.failures writer.new }
{
    let mut till = SettlingTill::new(alloc, zvt_till::Till::with_defaults(alloc));
    zvt_runs::tcp::run_till(rt, alloc, run, &mut till, &NoNotes, writer, &mut Unreported)
}

/// Listens on this port of 127.0.0.1 and serves one till until its connection ends, like
/// [`zvt_runs::tcp::run_terminal`]. With `loose`, the terminal accepts lengths in any form. Reports nothing.
pub fn run_terminal<R>(
    rt: &R,
    alloc: Global,
    port: u16,
    tid: u32,
    verdict: Verdict,
    loose: bool,
) -> Result<(), ToolFault>
where
    R: Net<Listener = TcpListener, Stream = TcpStream> + Clock,
    requires { tid ≤ 99999999 }
    ensures { ServesOne loose tid verdict result }
{
    let run = TerminalRun {
        host: LOCAL_HOST,
        port,
        tid,
        verdict,
        extras: Extras::none(),
        line: LineForm {
            lengths: lengths_by(loose),
            passes: false,
        },
        connections: 1,
        trace: None,
        form: Form::Text,
    };
    in_run(zvt_runs::tcp::run_terminal(rt, alloc, &run, &mut Unreported))
}
