//! The run of a till, from the command line.
ghost use Rattle.std.specs.Prelude.{◌≡◌};
ghost use Rattle.zvt.specs.Settings.{RunsAsAsked};

use crate::ends::{RunFiles, TillSteps, planned, run_files, run_status};
use crate::exit::Exit;
use crate::reports::{SOME_SECONDS, TERMINAL_PORT, report, report_invalid};
use crate::settings::settings;
use crate::trace_file::{mend_after, run_trace};
use std::fs::File;
use std::io;
use zvt_runs::tcp::TillRun;
use zvt_runs::{Ends, Planned, StepOptions, settling_once};
use zvt_stream::LineForm;
use zvt_tool::TillOptions;
use zvt_tool::options::{form_by, lengths_by};
use zvt_tool::statuses::WORDS;

/// The report if a till is given no steps.
const NO_STEPS: &str = "no steps are given, so the till registers and closes the day";

/// Runs a till and returns the exit status.
pub fn till(rt: &HostRuntime, options: &TillOptions<'_>) -> Result<u8, Exit> {
    let Some(settings) = settings(rt, options)? else {
        return Ok(WORDS);
    };
    if report_zero(rt, options)? {
        return Ok(WORDS);
    }
    let plan = till_plan(rt, options)?;
    let RunFiles { kept, trace } = run_files(rt, options.book, options.trace, &settings)?;
    let steps = TillSteps::There(till_run(rt, options, plan.as_slice(), trace.as_ref()));
    if options.steps.is_empty() {
        report(rt, NO_STEPS)?;
    }
    let status = run_status(rt, &steps, &settings, kept)?;
    Ok(mend_after(rt, options.trace, trace.as_ref(), status)?)
}

/// Parses the steps. A till with a book also asks once, if an answer can be of use, unless `--no-ask` is given.
fn till_plan(rt: &HostRuntime, options: &TillOptions<'_>) -> Result<Vec<Planned>, Exit> {
    let plan = planned(rt, Ends::Till, options.steps.as_slice())?;
    if options.book.is_none() || options.no_ask {
        return Ok(plan);
    }
    Ok(settling_once(rt.alloc(), plan)?)
}

/// Returns the run of these steps with the options.
fn till_run<'a, 'f>(
    rt: &HostRuntime,
    options: &'a TillOptions<'a>,
    plan: &'a [Planned],
    trace: Option<&'f File>,
) -> TillRun<'a, 'f>
    ensures { RunsAsAsked options.now result }
{
    TillRun {
        host: options.host,
        port: options.port,
        seconds: options.timeout,
        line: LineForm {
            lengths: lengths_by(options.loose),
            passes: options.reads_on,
        },
        trace: run_trace(trace, options.no_times),
        show: if options.show {
            Some(rt.stderr())
        } else {
            None
        },
        plan,
        options: StepOptions {
            form: form_by(options.json),
            check: options.check,
        },
    }
}

/// Returns whether the port or the timeout is 0, and reports it.
fn report_zero(rt: &HostRuntime, options: &TillOptions<'_>) -> io::Result<bool> {
    if options.port == 0 {
        report_invalid(rt, "port", "0", TERMINAL_PORT)?;
        return Ok(true);
    }
    if options.timeout == 0 {
        report_invalid(rt, "number of seconds", "0", SOME_SECONDS)?;
        return Ok(true);
    }
    Ok(false)
}
