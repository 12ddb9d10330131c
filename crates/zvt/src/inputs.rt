//! The files of a command: reads their traces, and names each in the output if there are several.
use crate::finish::finish_trace;
use crate::notes::{faulty_line, report_counts, report_hint, report_notes};
use crate::output::Output;
use crate::pages::write_page;
use crate::progress::Progress;
use crate::reports::{NO_TRACE, report, report_failed, report_invalid};
use crate::text_blocks::report_text_blocks;
use std::alloc::{AllocError, Global};
use std::fs::File;
use std::io::{self, IsTerminal, Write};
use zvt_audit::Sum;
use zvt_io::{Over, Sink, Source};
use zvt_text::{Form, Text};
use zvt_tool::label::Label;
use zvt_tool::on_trace::{follow_work, work_on_trace};
use zvt_tool::options::form_by;
use zvt_tool::statuses::{DEVICE, DONE, MEMORY, WORDS};
use zvt_tool::trace_command::{TraceCommand, TraceWork, codepage_named, zone_named};
use zvt_trace::{TraceFault, read_trace};

/// A trace of a command: its file, or `-` for standard input, and whether it is one of several.
#[derive(Clone, Copy)]
pub struct Input<'a> {
    file: &'a str,
    is_labelled: bool,
}

impl<'a> Input<'a> {
    /// Creates the input of this file, alone or as one of several.
    pub fn new(file: &'a str, is_labelled: bool) -> Input<'a> {
        Input { file, is_labelled }
    }

    /// Returns the name of the file, if the trace is in one.
    pub fn path(&self) -> Option<&'a str> {
        if self.file == "-" {
            None
        } else {
            Some(self.file)
        }
    }

    /// Returns whether this is the null device. A list of files may contain it so that each line names its file.
    pub fn is_null_device(&self) -> bool {
        self.is_labelled && self.file == "/dev/null"
    }

    /// Returns a writer for the output about the trace. With several files, each line begins with the name of its file.
    pub fn output<W: Write + Drop>(
        &self,
        alloc: Global,
        form: Form,
        inner: W,
    ) -> Result<Output<W>, AllocError> {
        if !self.is_labelled {
            return Ok(Output::new(inner));
        }
        let label = match form {
            Form::Json => Label::of_json(alloc, self.file)?,
            Form::Text => Label::of_text(alloc, self.file)?,
        };
        Ok(Output::labelled(alloc, inner, label))
    }

    /// Returns a writer for reports about the trace. With several files, each line begins with the name of its file.
    pub fn errors<W: Write + Drop>(
        &self,
        alloc: Global,
        inner: W,
    ) -> Result<Output<W>, AllocError> {
        if !self.is_labelled {
            return Ok(Output::new(inner));
        }
        let label = Label::of_text(alloc, self.file)?;
        Ok(Output::labelled(alloc, inner, label))
    }
}

/// The end of a command on one trace.
#[derive(Clone, Copy)]
struct Ended {
    status: u8,
    /// The total of the trace, if the command read it to its end.
    total: Option<u128>,
    /// Whether nothing more can be written.
    is_output_lost: bool,
}

impl Ended {
    /// Returns the end of a command that did not read the trace.
    fn early(status: u8) -> Ended {
        Ended {
            status,
            total: None,
            is_output_lost: false,
        }
    }
}

/// Runs the command on the trace in each of its files, or on standard input if no file is named. Returns the highest
/// exit status.
pub fn work_on(rt: &HostRuntime, command: &TraceCommand<'_>) -> io::Result<u8> {
    if !takes_codepage(rt, command)?
        || !takes_page(rt, command)?
        || !takes_zone(rt, command)?
        || !takes_times(rt, command)?
    {
        return Ok(WORDS);
    }
    match command.files.as_slice() {
        [] => work_on_only(rt, command, "-"),
        [file] => work_on_only(rt, command, file),
        _ if command.follow => {
            report(
                rt,
                "'--follow' takes one FILE: it reads one line after another",
            )?;
            Ok(WORDS)
        }
        files if command.html => write_page(rt, command, files),
        files => work_on_all(rt, command, files),
    }
}

/// Returns whether the command can use its code page, if it has one, and reports if it cannot.
fn takes_codepage(rt: &HostRuntime, command: &TraceCommand<'_>) -> io::Result<bool> {
    let Some(name) = command.codepage else {
        return Ok(true);
    };
    if codepage_named(name).is_none() {
        report_invalid(
            rt,
            "code page",
            name,
            "expected 437, 850, iso-8859-1 or utf-8",
        )?;
        return Ok(false);
    }
    if command.is_json() {
        report(
            rt,
            "'--codepage' does not go with '--json', where bytes that are not ASCII stay escapes",
        )?;
        return Ok(false);
    }
    Ok(true)
}

/// Returns whether the command can write its page, if it is to write one, and reports if it cannot.
fn takes_page(rt: &HostRuntime, command: &TraceCommand<'_>) -> io::Result<bool> {
    if !command.html {
        return Ok(true);
    }
    if command.is_json() {
        report(
            rt,
            "'--html' does not go with '--json': leave one of them out",
        )?;
        return Ok(false);
    }
    Ok(true)
}

/// Returns whether the command can show times in its zone, if it has one, and reports if it cannot.
fn takes_zone(rt: &HostRuntime, command: &TraceCommand<'_>) -> io::Result<bool> {
    let Some(text) = command.zone else {
        return Ok(true);
    };
    if zone_named(text).is_none() {
        report_invalid(
            rt,
            "zone",
            text,
            "expected +HH:MM or -HH:MM, at most 14 hours, e.g. +01:00",
        )?;
        return Ok(false);
    }
    if command.is_json() {
        report(
            rt,
            "'--zone' does not go with '--json', which has times in UTC",
        )?;
        return Ok(false);
    }
    Ok(true)
}

/// Returns whether the command can write times, if it is to write them, and reports if it cannot.
fn takes_times(rt: &HostRuntime, command: &TraceCommand<'_>) -> io::Result<bool> {
    if command.times && command.is_json() {
        report(
            rt,
            "'--times' does not go with '--json': leave one of them out",
        )?;
        return Ok(false);
    }
    if command.times && command.follow {
        report(
            rt,
            "'--times' does not go with '--follow': leave one of them out",
        )?;
        return Ok(false);
    }
    Ok(true)
}

/// Runs the command on the only trace.
fn work_on_only(rt: &HostRuntime, command: &TraceCommand<'_>, file: &str) -> io::Result<u8> {
    Ok(work_on_one(rt, command, Input::new(file, false))?.status)
}

/// Runs the command on one trace after another. An audit ends with the sum of all.
fn work_on_all(rt: &HostRuntime, command: &TraceCommand<'_>, files: &[&str]) -> io::Result<u8> {
    let mut progress = Progress::new(rt, files.len());
    let mut sum = Sum::new(files.len());
    let mut status = DONE;
    for file in files {
        let ended = work_on_one(rt, command, Input::new(file, true))?;
        status = status.max(ended.status);
        if ended.is_output_lost {
            return Ok(status);
        }
        if let Some(total) = ended.total {
            sum.add(total);
        }
        progress.step(rt)?;
    }
    progress.clear(rt)?;
    match command.work {
        TraceWork::Audit(form) => Ok(status.max(write_sum(rt, form, &sum)?)),
        _ => Ok(status),
    }
}

/// Writes the line with the sum and returns its exit status.
pub fn write_sum(rt: &HostRuntime, form: Form, sum: &Sum) -> io::Result<u8> {
    let mut text = Text::new(rt.alloc());
    if sum.write(&mut text, form).is_err() {
        return finish_trace(rt, None, false, false, Err(TraceFault::Memory));
    }
    let mut writer = Over::new(Output::new(io::writer(rt)));
    match Sink::write_all(&mut writer, text.bytes()) {
        Ok(()) => Ok(DONE),
        Err(_) => finish_trace(
            rt,
            None,
            writer.inner.broken_pipe,
            false,
            Err(TraceFault::Write),
        ),
    }
}

/// Runs the command on one trace.
fn work_on_one(
    rt: &HostRuntime,
    command: &TraceCommand<'_>,
    input: Input<'_>,
) -> io::Result<Ended> {
    match input.path() {
        None => work_on_input(rt, command, input),
        Some(path) => work_on_file(rt, command, input, path),
    }
}

/// Runs the command on the trace from standard input. If that is a keyboard, reports that a trace is expected.
fn work_on_input(
    rt: &HostRuntime,
    command: &TraceCommand<'_>,
    input: Input<'_>,
) -> io::Result<Ended> {
    let reader = rt.reader();
    if reader.is_terminal() {
        report(
            rt,
            "reading a trace from the keyboard: end it with Ctrl-D at the start of a line",
        )?;
    }
    work_with(rt, command, input, &mut Over::new(reader))
}

/// Runs the command on the trace in this file.
fn work_on_file(
    rt: &HostRuntime,
    command: &TraceCommand<'_>,
    input: Input<'_>,
    path: &str,
) -> io::Result<Ended> {
    let file = match opened(rt, path) {
        Ok(file) => file,
        Err(error) => {
            report_failed(rt, path, NO_TRACE, &error)?;
            return Ok(Ended::early(DEVICE));
        }
    };
    work_with(rt, command, input, &mut Over::new(file))
}

/// Runs the command on the reader's trace, as it arrives or once it is read.
fn work_with<R: Source>(
    rt: &HostRuntime,
    command: &TraceCommand<'_>,
    input: Input<'_>,
    reader: &mut R,
) -> io::Result<Ended> {
    if command.follow {
        follow(rt, command, input, reader)
    } else {
        work_on_whole(rt, command, input, reader)
    }
}

/// Runs the command on the reader's trace as it arrives. Reports the number of bad streams, and then the fault that
/// ended the command, if any.
fn follow<R: Source>(
    rt: &HostRuntime,
    command: &TraceCommand<'_>,
    input: Input<'_>,
    reader: &mut R,
) -> io::Result<Ended> {
    let mut writer = Over::new(Output::new(io::writer(rt)));
    let answer = follow_work(rt.alloc(), command, reader, &mut writer);
    let is_output_lost = matches!(answer, Err(TraceFault::Write));
    report_counts(rt, &answer)?;
    let broken_pipe = writer.inner.broken_pipe;
    let status = finish_trace(rt, input.path(), broken_pipe, command.check, answer)?;
    Ok(Ended {
        status,
        total: None,
        is_output_lost,
    })
}

/// Runs the command on the reader's trace. Reports bad streams, with the name of the file if there is one, and then the
/// fault that ended the command, if any. If there is no memory for such a report, the command runs out of memory.
fn work_on_whole<R: Source>(
    rt: &HostRuntime,
    command: &TraceCommand<'_>,
    input: Input<'_>,
    reader: &mut R,
) -> io::Result<Ended> {
    let path = input.path();
    let trace = match read_trace(rt.alloc(), reader) {
        Ok(trace) => trace,
        Err(fault) => return Ok(Ended::early(finish_trace(rt, path, false, false, Err(fault))?)),
    };
    let Ok(output) = input.output(rt.alloc(), form_by(command.is_json()), io::writer(rt)) else {
        let status = finish_trace(rt, path, false, false, Err(TraceFault::Memory))?;
        return Ok(Ended::early(status));
    };
    let mut writer = Over::new(output);
    let trace = trace.as_slice();
    let answer = work_on_trace(rt.alloc(), command, trace, &mut writer);
    let answer = writer.inner.explained(answer);
    let faulty = faulty_line(command, &answer);
    let had_memory = report_notes(rt, command, input, trace, &answer)?
        && (writer.inner.has_text || report_text_blocks(rt, command, input, trace, &answer)?);
    let total = match &answer {
        Ok(found) => Some(found.total),
        Err(_) => None,
    };
    let is_output_lost = matches!(answer, Err(TraceFault::Write));
    let status = finish_trace(rt, path, writer.inner.broken_pipe, command.check, answer)?;
    report_hint(rt, input, trace, faulty)?;
    Ok(Ended {
        status: if had_memory { status } else { MEMORY },
        total,
        is_output_lost,
    })
}

/// Opens the file, unless it is a directory, which the system would open and fail to read.
pub fn opened(rt: &HostRuntime, path: &str) -> io::Result<File> {
    let file = File::open(rt, path)?;
    if file.metadata()?.is_dir() {
        return Err(io::Error::from(io::ErrorKind::IsADirectory));
    }
    Ok(file)
}
