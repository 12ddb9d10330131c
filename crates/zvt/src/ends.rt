//! The runs of both ends of a line and of a terminal, from the command line, and the parts that all runs share.
ghost use Rattle.std.specs.Prelude.{◌≡◌, ◌<◌, ◌≤◌, Err, IfOk, Result, is_some};
ghost use Rattle.zvt_runs.specs.Reporting.{ReportsNothing, ReportsRun};
ghost use Rattle.zvt_runs.specs.declared.fault.EndFault.{EndFault};
ghost use Rattle.zvt_till.specs.Settings.{settings_of};
ghost use Rattle.zvt_settle.specs.Inside.{both_of};
ghost use Rattle.zvt_settle.specs.Settling.{new_both};
ghost use Rattle.zvt_tool.specs.Statuses.{status_of_run};
ghost use Rattle.zvt.specs.Runs.{MakesSteps, RunsEither, RunsSteps};

use crate::exit::Exit;
use crate::finish::{finish_plan, finish_run};
use crate::one_file::report_one_file;
use crate::output::Output;
use crate::settings::{extras, verdict};
use crate::{book, trace_file};
use std::fs::File;
use std::io;
use zvt_io::{Over, Sink};
use zvt_journal::FileDevice;
use zvt_kept::KeptTill;
use zvt_runs::tcp::{LoopRun, TerminalRun, TillRun, run_loop, run_terminal, run_till};
use zvt_runs::{Clocked, EndFault, Ends, NoNotes, NoteSource, Planned, StepOptions, plan};
use zvt_settle::{Asker, SettlingTill};
use zvt_stream::LineForm;
use zvt_till::{Till, TillSettings};
use zvt_tool::TerminalOptions;
use zvt_tool::options::{connections_by, form_by, lengths_by};
use zvt_tool::statuses::WORDS;

/// The files of a run that has a till.
#[derive(Drop)]
pub struct RunFiles {
    /// The till of the book, if one is kept.
    pub kept: Option<KeptTill<FileDevice>>,
    /// The file of the trace, if one is written.
    pub trace: Option<File>,
}

/// Runs both ends of a line in this process and returns the exit status.
pub fn both_ends(
    rt: &HostRuntime,
    trace: Option<&str>,
    no_times: bool,
    book: Option<&str>,
    options: StepOptions,
    steps: &[&str],
) -> Result<u8, Exit> {
    let plan = planned(rt, Ends::Both, steps)?;
    let settings = TillSettings::default();
    let RunFiles { kept, trace: file } = run_files(rt, book, trace, &settings)?;
    let steps = TillSteps::Here(LoopRun {
        trace: trace_file::run_trace(file.as_ref(), no_times),
        plan: plan.as_slice(),
        options,
    });
    let status = run_status(rt, &steps, &settings, kept)?;
    Ok(trace_file::mend_after(rt, trace, file.as_ref(), status)?)
}

/// The steps of a till, and the line on which it makes them.
#[derive(Clone, Copy)]
pub enum TillSteps<'a, 'f> {
    /// The terminal is elsewhere.
    There(TillRun<'a, 'f>),
    /// The terminal is in this process.
    Here(LoopRun<'a, 'f>),
}

impl TillSteps<'_, '_> {
    /// Makes the steps with this till, alone or with a book, as [`run_till`] or [`run_loop`] does. `writer` gets the
    /// line of each step, and `report` the notes on them.
    fn make<K, N, W, E>(
        &self,
        rt: &HostRuntime,
        till: &mut K,
        notes: &N,
        writer: &mut W,
        report: &mut E,
    ) -> Result<(), EndFault>
    where
        K: Asker,
        N: NoteSource<K>,
        W: Sink,
        E: Sink,
        ensures run { MakesSteps K.connects K.orders K.hears K.is_resting K.failed K.till K.loses K.malforms K.asks
            K.settling N.noted self.now till.old till.new (W.written writer.old) (W.written writer.new)
            (ReportsRun (E.written report.old) (E.written report.new) (E.failures report.old) (E.failures report.new))
            (ReportsNothing (E.written report.old) (E.written report.new) (E.failures report.old)
            (E.failures report.new)) result }
        ensures write { result ≡ Err EndFault.Write → W.failures writer.old < W.failures writer.new }
    {
        match self {
            TillSteps::There(run) => run_till(rt, rt.alloc(), run, till, notes, writer, report),
            TillSteps::Here(run) => run_loop(rt, rt.alloc(), run, till, notes, writer, report),
        }
    }
}

/// How a run ended, and whether the reader of its output disconnected.
#[derive(Drop)]
struct RunEnd {
    answer: Result<(), EndFault>,
    broken_pipe: bool,
}

/// Makes the steps with this till. The lines of the steps go to standard output, and the notes to standard error.
fn make_with<K: Asker, N: NoteSource<K>>(
    rt: &HostRuntime,
    run: &TillSteps<'_, '_>,
    till: &mut K,
    notes: &N,
) -> RunEnd
    ensures { RunsSteps K.connects K.orders K.hears K.is_resting K.failed K.till K.loses K.malforms K.asks K.settling
        N.noted run.now till.old result.answer }
{
    let mut writer = Over::new(Output::new(io::writer(rt)));
    let mut report = Over::new(rt.stderr());
    let answer = run.make(rt, till, notes, &mut writer, &mut report);
    RunEnd {
        answer,
        broken_pipe: writer.inner.broken_pipe,
    }
}

/// Makes the steps with the till of a book, or with a new till. Reports why the book could not be written, if so.
fn make_with_either(
    rt: &HostRuntime,
    run: &TillSteps<'_, '_>,
    settings: &TillSettings,
    kept: Option<KeptTill<FileDevice>>,
) -> io::Result<RunEnd>
    ensures { IfOk result (λ end. RunsEither run.now (settings_of settings.now) kept end.answer) }
{
    match kept {
        None => Ok(make_with(rt, run, &mut new_till(rt, settings), &NoNotes)),
        Some(mut till) => {
            let end = make_with(rt, run, &mut till, &Clocked { clock: rt });
            book::report_failure(rt, till.device())?;
            Ok(end)
        }
    }
}

/// Makes the steps with the till of a book, or with a new till, and returns the exit status. Reports why the run ended
/// early, and why the book could not be written, if so.
pub fn run_status(
    rt: &HostRuntime,
    run: &TillSteps<'_, '_>,
    settings: &TillSettings,
    kept: Option<KeptTill<FileDevice>>,
) -> io::Result<u8>
    ensures { IfOk result (λ status. (answer : Result Unit EndFault) × (status ≡ status_of_run answer)
        × RunsEither run.now (settings_of settings.now) kept answer) }
{
    let end = make_with_either(rt, run, settings, kept)?;
    finish_run(rt, end.broken_pipe, end.answer)
}

/// Serves tills as a simulated terminal and returns the exit status. Reports text on standard error, or JSON on
/// standard output.
pub fn terminal(rt: &HostRuntime, options: &TerminalOptions<'_>) -> Result<u8, Exit>
    requires { options.now.tid ≤ 99999999 }
{
    let Some(verdict) = verdict(rt, options.decline)? else {
        return Ok(WORDS);
    };
    let Some(extras) = extras(rt, options)? else {
        return Ok(WORDS);
    };
    let file = trace_file::opened(rt, options.trace)?;
    let trace = file.as_ref();
    let run = TerminalRun {
        host: options.host,
        port: options.port,
        tid: options.tid,
        verdict,
        extras,
        line: LineForm {
            lengths: lengths_by(options.loose),
            passes: options.reads_on,
        },
        connections: connections_by(options.connections),
        trace: trace_file::run_trace(trace, options.no_times),
        form: form_by(options.json),
    };
    let answer = if options.json {
        let mut report = Over::new(io::writer(rt));
        run_terminal(rt, rt.alloc(), &run, &mut report)
    } else {
        let mut report = Over::new(rt.stderr());
        run_terminal(rt, rt.alloc(), &run, &mut report)
    };
    let status = finish_run(rt, false, answer)?;
    Ok(trace_file::mend_after(rt, options.trace, trace, status)?)
}

/// Returns a new till with these settings.
fn new_till(rt: &HostRuntime, settings: &TillSettings) -> SettlingTill
    ensures { both_of result ≡ new_both (settings_of settings.now) }
{
    SettlingTill::new(rt.alloc(), Till::with_settings(rt.alloc(), settings))
}

/// Parses the words as steps. Reports a word that names no step.
pub fn planned(rt: &HostRuntime, ends: Ends, words: &[&str]) -> Result<Vec<Planned>, Exit> {
    match plan(rt.alloc(), ends, words) {
        Ok(plan) => Ok(plan),
        Err(fault) => Err(Exit::Status(finish_plan(rt, words, fault)?)),
    }
}

/// Opens the book and the trace of a run, if they are named. If both names refer to the same file, opens neither and
/// fails.
pub fn run_files(
    rt: &HostRuntime,
    book: Option<&str>,
    trace: Option<&str>,
    settings: &TillSettings,
) -> Result<RunFiles, Exit> {
    if report_one_file(rt, book, trace)? {
        return Err(Exit::Status(WORDS));
    }
    Ok(RunFiles {
        kept: opened(rt, book, settings)?,
        trace: trace_file::opened(rt, trace)?,
    })
}

/// Opens the book in this file, if one is named. Reports why it cannot be opened.
fn opened(
    rt: &HostRuntime,
    path: Option<&str>,
    settings: &TillSettings,
) -> Result<Option<KeptTill<FileDevice>>, Exit>
    ensures { IfOk result (λ kept. is_some kept ≡ is_some path.entry) }
{
    match path {
        None => Ok(None),
        Some(path) => Ok(Some(book::open(rt, path, settings)?)),
    }
}
