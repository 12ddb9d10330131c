//! Shows, joins and audits traces of the line between a till and its card terminal, and runs either end of it.
#![tactic(auto)]

ghost use Rattle.std.specs.Prelude.{Option, List};
ghost use Rattle.clap.specs.Words.{Row, Text};
ghost use Rattle.zvt_tool.specs.Chosen.{IsChoiceOf};

mod book;
mod book_till;
mod check;
mod connections;
mod earlier;
mod ends;
mod exit;
mod finish;
mod inputs;
mod notes;
mod one_file;
mod output;
mod pages;
mod play;
mod progress;
mod reports;
mod screen;
mod serve;
mod service_host;
mod settings;
mod tap;
mod text_blocks;
mod till;
mod token;
mod trace_file;
mod waiting;

use crate::exit::Exit;
use crate::reports::report;
use std::io::ErrorKind;
use std::process::ExitCode;
use std::{env, io};
use zvt_runs::StepOptions;
use zvt_tool::options::form_by;
use zvt_tool::statuses::{DEVICE, DONE, MEMORY, WORDS};
use zvt_tool::{Choice, ChoiceFault, choice, with_show};
use zvt_trace::TraceFault;

fn main(rt: HostRuntime) -> ExitCode {
    match run(&rt) {
        Ok(status) | Err(Exit::Status(status)) => ExitCode::from(status),
        Err(Exit::Failed(error)) => ExitCode::from(failed(&rt, &error)),
    }
}

/// Returns the exit status if help or a report could not be written. Reports a failed allocation, if possible.
fn failed(rt: &HostRuntime, error: &io::Error) -> u8 {
    if error.kind() != ErrorKind::OutOfMemory {
        return DEVICE;
    }
    let fault = TraceFault::Memory;
    let _ = report(rt, &fault);
    MEMORY
}

/// Executes the command line and returns the exit status.
fn run(rt: &HostRuntime) -> Result<u8, Exit> {
    let arguments = match env::args(rt) {
        Ok(arguments) => arguments,
        Err(error) => return Ok(without_arguments(rt, &error)?),
    };
    let arguments: Vec<String> = match arguments.collect(rt.alloc()) {
        Ok(arguments) => arguments,
        Err(_) => return Ok(without_memory(rt)?),
    };
    let texts: Vec<&str> = match arguments.iter().map(String::as_str).collect(rt.alloc()) {
        Ok(texts) => texts,
        Err(_) => return Ok(without_memory(rt)?),
    };
    let texts = match with_show(rt.alloc(), texts.as_slice()) {
        Ok(texts) => texts,
        Err(_) => return Ok(without_memory(rt)?),
    };
    match choice(rt.alloc(), texts.as_slice()) {
        Ok(chosen) => execute(rt, &chosen),
        Err(ChoiceFault::Words(error)) => {
            error.print(rt)?;
            Ok(if error.use_stderr() { WORDS } else { DONE })
        }
        Err(ChoiceFault::Memory) => Ok(without_memory(rt)?),
    }
}

/// Returns the exit status if the arguments cannot be read, because memory ran out or one of them is not valid UTF-8.
fn without_arguments(rt: &HostRuntime, error: &io::Error) -> io::Result<u8> {
    if error.kind() == ErrorKind::OutOfMemory {
        return without_memory(rt);
    }
    report(rt, "an argument is not valid UTF-8")?;
    Ok(WORDS)
}

/// Returns the exit status if an allocation for the arguments failed.
fn without_memory(rt: &HostRuntime) -> io::Result<u8> {
    report(rt, &ChoiceFault::Memory)?;
    Ok(MEMORY)
}

/// Executes the command and returns the exit status.
fn execute(rt: &HostRuntime, chosen: &Choice<'_>) -> Result<u8, Exit>
    requires { (reading : Option (Text × List Row)) × IsChoiceOf reading chosen.now }
{
    match chosen {
        Choice::Show(command)
        | Choice::Join(command)
        | Choice::Normalise(command)
        | Choice::Audit(command)
        | Choice::Report(command)
        | Choice::Receipts(command)
        | Choice::Vectors(command) => Ok(inputs::work_on(rt, command)?),
        Choice::Book {
            files,
            records: true,
            ..
        } => Ok(book::records(rt, files.as_slice())?),
        Choice::Book { files, json, .. } => Ok(book::show(rt, files.as_slice(), form_by(*json))?),
        Choice::Loop {
            trace,
            no_times,
            book,
            check,
            json,
            steps,
        } => {
            let options = StepOptions {
                form: form_by(*json),
                check: *check,
            };
            ends::both_ends(rt, *trace, *no_times, *book, options, steps.as_slice())
        }
        Choice::Till(options) => till::till(rt, options),
        Choice::Terminal(options) => ends::terminal(rt, options),
        Choice::Tap(options) => tap::tap(rt, options),
        Choice::Serve(options) => serve::serve(rt, options),
        Choice::Play(options) => play::play(rt, options),
        Choice::CheckTill(options) => check::till(rt, options),
        Choice::CheckTerminal(options) => check::terminal(rt, options),
    }
}
