//! The page of a report about several files.
use crate::finish::finish_trace;
use crate::inputs::{Input, opened};
use crate::output::Output;
use crate::progress::Progress;
use crate::reports::{NO_TRACE, report_failed};
use std::io;
use zvt_io::Over;
use zvt_report::{FilesPage, Zone};
use zvt_tool::on_trace::add_to_page;
use zvt_tool::statuses::{DEVICE, DONE, MEMORY};
use zvt_tool::trace_command::{TraceCommand, TraceWork};
use zvt_trace::read_trace;

/// Writes one page about all these files, and returns the highest exit status. The index names a file that cannot be
/// read.
pub fn write_page(rt: &HostRuntime, command: &TraceCommand<'_>, files: &[&str]) -> io::Result<u8> {
    let mut page = FilesPage::new(rt.alloc());
    let mut progress = Progress::new(rt, files.len());
    let mut status = DONE;
    for (at, file) in files.iter().enumerate() {
        status = status.max(add_file(rt, command, &mut page, at + 1, file)?);
        if status == MEMORY {
            return Ok(status);
        }
        progress.step(rt)?;
    }
    progress.clear(rt)?;
    Ok(status.max(write_out(rt, &page)?))
}

/// Adds a file to the page, and returns its exit status. Reports why a file cannot be read.
fn add_file(
    rt: &HostRuntime,
    command: &TraceCommand<'_>,
    page: &mut FilesPage,
    place: usize,
    file: &str,
) -> io::Result<u8> {
    let path = Input::new(file, true).path();
    let read = match path {
        None => read_trace(rt.alloc(), &mut Over::new(rt.reader())),
        Some(path) => match opened(rt, path) {
            Ok(open) => read_trace(rt.alloc(), &mut Over::new(open)),
            Err(error) => {
                report_failed(rt, path, NO_TRACE, &error)?;
                return unread(page, place, file, DEVICE);
            }
        },
    };
    let answer = match read {
        Ok(trace) => add_to_page(
            rt.alloc(),
            command,
            zone_of(command),
            page,
            place,
            file,
            trace.as_slice(),
        ),
        Err(fault) => Err(fault),
    };
    let is_read = answer.is_ok();
    let status = finish_trace(rt, path, false, command.check, answer)?;
    if is_read {
        return Ok(status);
    }
    unread(page, place, file, status)
}

/// Adds a file without a report to the page, and returns this exit status.
fn unread(page: &mut FilesPage, place: usize, file: &str, status: u8) -> io::Result<u8> {
    match page.add_unread(place, file.as_bytes()) {
        Ok(()) => Ok(status),
        Err(_) => Ok(MEMORY),
    }
}

/// Returns the zone of the times in a report.
fn zone_of(command: &TraceCommand<'_>) -> Zone {
    match command.work {
        TraceWork::Report { zone, .. } => zone,
        _ => Zone::utc(),
    }
}

/// Writes the page to standard output, and returns the exit status of that.
fn write_out(rt: &HostRuntime, page: &FilesPage) -> io::Result<u8> {
    let mut writer = Over::new(Output::new(io::writer(rt)));
    match page.write(&mut writer) {
        Ok(()) => Ok(DONE),
        Err(fault) => finish_trace(rt, None, writer.inner.broken_pipe, false, Err(fault)),
    }
}
