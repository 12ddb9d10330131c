//! A tap between a till and its terminal, as the command line asks for it.
use crate::exit::Exit;
use crate::notes::{Counted, write_unfollowed};
use crate::output::Output;
use crate::reports::{report, report_invalid, report_tally};
use crate::screen::Screen;
use crate::trace_file::{self, ReportedTrace};
use crate::waiting::Waiting;
use std::fmt::Display;
use std::fs::File;
use std::io::{self, ErrorKind, Write};
use std::net::TcpStream;
use zvt_grammar::Lengths;
use zvt_io::Over;
use zvt_runs::tcp::{SILENCE_SECONDS, connect, listen};
use zvt_tap::{Found, SILENT_SECONDS, SocketTapped, TapFault, Tracing, new_log, tap_sockets};
use zvt_tool::TapOptions;
use zvt_tool::options::{connections_by, lengths_by};
use zvt_tool::statuses::{BAD, DEVICE, DONE, MEMORY, WORDS};
use zvt_trace::{Direction, Tally, TraceFault};

/// The file descriptor of standard output.
const STANDARD_OUTPUT: i32 = 1;

/// The host of a tap that names none.
const HERE: &str = "127.0.0.1";

/// An address of the command line.
#[derive(Clone, Copy)]
struct Address<'a> {
    host: &'a str,
    port: u16,
}

impl<'a> Address<'a> {
    /// The address that is written `HOST:PORT`. A host that has colons stands in brackets.
    fn of(text: &'a str) -> Option<Address<'a>> {
        let parts = match text.strip_prefix("[") {
            Some(rest) => rest.split_once("]:"),
            None => text.split_once(":"),
        };
        let (host, port) = parts?;
        if host.is_empty() {
            return None;
        }
        match port.parse::<u16>() {
            Ok(port) => Some(Address { host, port }),
            Err(_) => None,
        }
    }

    /// The address that is written `HOST:PORT`, or as a port of this machine.
    fn here(text: &'a str) -> Option<Address<'a>> {
        match text.parse::<u16>() {
            Ok(port) => Some(Address { host: HERE, port }),
            Err(_) => Address::of(text),
        }
    }
}

/// The file of a trace, whether its lines have no time marks, and whether it failed and lines may go on without it.
#[derive(Drop)]
struct TraceFile<'a> {
    file: Option<&'a File>,
    no_times: bool,
    required: bool,
    failed: bool,
}

/// Forwards one connection after another between tills and a terminal, and returns the highest exit status.
pub fn tap(rt: &HostRuntime, options: &TapOptions<'_>) -> Result<u8, Exit> {
    let Some(from) = Address::here(options.listen) else {
        let expected = "expected PORT or HOST:PORT, e.g. 20007";
        report_invalid(rt, "address", options.listen, expected)?;
        return Ok(WORDS);
    };
    let to = match Address::of(options.to) {
        Some(to) if to.port > 0 => to,
        _ => {
            let expected = "expected HOST:PORT, e.g. 192.0.2.7:20007";
            report_invalid(rt, "address", options.to, expected)?;
            return Ok(WORDS);
        }
    };
    let file = trace_file::opened(rt, options.trace)?;
    let mut trace = TraceFile {
        file: file.as_ref(),
        no_times: options.no_times,
        required: options.trace_required,
        failed: false,
    };
    match listen(rt, from.host, from.port) {
        Ok(mut door) => {
            let mut screen = Screen::new(rt, rt.alloc(), io::writer(rt), STANDARD_OUTPUT);
            let mut waiting = Waiting::at(rt.alloc(), &mut door);
            let status = tap_all(rt, options, to, &mut waiting, &mut trace, &mut screen);
            Ok(status.max(shown_to_its_end(rt, &mut screen)))
        }
        Err(why) => {
            eprintln!(rt; "zvt: cannot listen at '{}': {why}", options.listen)?;
            Ok(DEVICE)
        }
    }
}

/// Prints the text that is still held, now that no line waits for it. Answers the exit status: not 0 if text is
/// missing.
fn shown_to_its_end<W: Write>(rt: &HostRuntime, screen: &mut Screen<W>) -> u8 {
    let finished = screen.finish();
    let lost = screen.lost();
    if lost > 0 {
        let _ = eprintln!(rt;
            "zvt: {lost} bytes were not printed, because nobody read standard output"
        );
    }
    if lost > 0 || finished.is_err() {
        DEVICE
    } else {
        DONE
    }
}

/// Reports this, if it can be. A line goes on without anyone who reads the reports.
fn report_if_read<T: Display + Drop>(rt: &HostRuntime, what: T) {
    let _ = report(rt, what);
}

/// Passes on one line after another, and answers the highest exit status.
fn tap_all<W: Write + Drop>(
    rt: &HostRuntime,
    options: &TapOptions<'_>,
    to: Address<'_>,
    waiting: &mut Waiting<'_>,
    trace: &mut TraceFile<'_>,
    screen: &mut Screen<W>,
) -> u8 {
    if let Ok(address) = waiting.door.address() {
        let _ = eprintln!(rt; "zvt: a tap listens at {address}");
    }
    let mut status = DONE;
    for _line in 0..connections_by(options.connections) {
        let Some(till) = waiting.next_till(rt) else {
            return DEVICE;
        };
        let answer = match connect(rt, to.host, to.port, SILENCE_SECONDS) {
            Ok(terminal) => {
                let had_failed = trace.failed;
                let line = Line {
                    till: &till,
                    terminal: &terminal,
                    reads_on: options.reads_on,
                    lengths: lengths_by(options.loose),
                };
                let answer = tap_one(rt, &line, waiting, trace, screen);
                if trace.failed && !had_failed {
                    let _ = trace_file::mend_after(rt, options.trace, trace.file, answer);
                }
                answer
            }
            Err(why) => {
                let _ = eprintln!(rt;
                    "zvt: no connection to the terminal at '{}': {why}",
                    options.to
                );
                DEVICE
            }
        };
        status = status.max(answer);
        if trace.failed && trace.required {
            return status;
        }
    }
    status
}

/// Both connections of a line, whether it is read on after a refused message, and the lengths of its messages.
#[derive(Clone, Copy)]
struct Line<'a> {
    till: &'a TcpStream,
    terminal: &'a TcpStream,
    reads_on: bool,
    lengths: Lengths,
}

/// Passes on one line, and answers its exit status.
fn tap_one<W: Write + Drop>(
    rt: &HostRuntime,
    line: &Line<'_>,
    waiting: &mut Waiting<'_>,
    trace: &mut TraceFile<'_>,
    screen: &mut Screen<W>,
) -> u8 {
    let consequence = if trace.required {
        "the line ends"
    } else {
        "the line goes on without it"
    };
    let device = match trace_file::run_trace(trace.file, trace.no_times) {
        Some(trace) => Some(trace_file::reported(rt, trace, consequence)),
        None => None,
    };
    let Ok(tracing) = Tracing::new(rt.alloc(), device, trace.failed, trace.required) else {
        return report_fault(rt, &TraceFault::Memory);
    };
    let (status, failed) = tap_into(rt, line, waiting, tracing, screen);
    trace.failed = failed;
    if failed { status.max(DEVICE) } else { status }
}

/// Passes on one line, and answers its exit status and whether its trace failed.
fn tap_into<W: Write + Drop>(
    rt: &HostRuntime,
    line: &Line<'_>,
    waiting: &mut Waiting<'_>,
    tracing: Tracing<ReportedTrace<'_>>,
    screen: &mut Screen<W>,
) -> (u8, bool) {
    let failed = tracing.failed;
    let output = Over::new(Output::new(screen));
    let Ok(log) = new_log(rt.alloc(), line.reads_on, line.lengths, tracing, output) else {
        return (report_fault(rt, &TraceFault::Memory), failed);
    };
    let _ = waiting.door.set_nonblocking(true);
    let tapped = tap_sockets(rt, rt.alloc(), line.till, line.terminal, waiting, log);
    let _ = waiting.door.set_nonblocking(false);
    let tapped = match tapped {
        Ok(tapped) => tapped,
        Err(error) if matches!(error.kind(), ErrorKind::OutOfMemory) => {
            return (report_fault(rt, &TraceFault::Memory), failed);
        }
        Err(error) => {
            let _ = eprintln!(rt; "zvt: the sockets of the line can't be used: {error}");
            return (DEVICE, failed);
        }
    };
    let SocketTapped {
        tapped,
        error,
        was_replaced,
        newer,
    } = tapped;
    for till in newer {
        let _ = waiting.tills.push(till);
    }
    if was_replaced {
        let _ = eprintln!(rt;
            "zvt: the till connected anew, so its line was closed that had been silent for {SILENT_SECONDS} seconds"
        );
    }
    let status = match tapped.ended {
        Ok(()) => DONE,
        Err(fault) => report_end(rt, fault, error),
    };
    let found = tapped.found;
    let failed = found.tracing.failed;
    let status = status.max(report_found(rt, found));
    (status, failed)
}

/// Reports why a line ended early, and answers the exit status of that.
fn report_end(rt: &HostRuntime, fault: TapFault, error: Option<ErrorKind>) -> u8 {
    match fault {
        TapFault::Read(from) => {
            let _ = eprintln!(rt; "zvt: the line to the {} broke: {}", name(from), why(error));
            DEVICE
        }
        TapFault::Write(from) => {
            let _ = eprintln!(rt;
                "zvt: the line to the {} broke: {}",
                other_name(from),
                why(error)
            );
            DEVICE
        }
        // It was reported when the trace failed.
        TapFault::Trace => DEVICE,
        TapFault::Memory => report_fault(rt, &TraceFault::Memory),
        TapFault::Wait => {
            report_if_read(rt, "waiting for data failed, so the connection was closed");
            DEVICE
        }
    }
}

/// What a side is called.
fn name(side: Direction) -> &'static str {
    match side {
        Direction::FromTill => "till",
        Direction::FromTerminal => "terminal",
    }
}

/// What the other side is called.
fn other_name(side: Direction) -> &'static str {
    match side {
        Direction::FromTill => "terminal",
        Direction::FromTerminal => "till",
    }
}

/// What a system's error says of the side of a line.
fn why(error: Option<ErrorKind>) -> &'static str {
    match error {
        Some(ErrorKind::ConnectionReset) => "it reset the connection",
        Some(ErrorKind::BrokenPipe) =>
            "it closed the connection while there was more to send to it",
        Some(ErrorKind::WouldBlock | ErrorKind::TimedOut) => {
            "it read nothing for 5 seconds: check whether it hangs"
        }
        _ => "check the network and the program there",
    }
}

/// Reports how much of a line is bad, and what of its text could not be written. Answers the exit status of that.
fn report_found<W: Write + Drop>(
    rt: &HostRuntime,
    found: Found<ReportedTrace<'_>, Over<Output<W>>>,
) -> u8 {
    let Found {
        shown,
        audited,
        output,
        ..
    } = found;
    let is_pipe_closed = output.inner.broken_pipe;
    let passed = match &audited {
        Ok(audited) => audited.passed,
        Err(_) => 0,
    };
    let shown = match shown {
        Ok(tally) => {
            if tally.bad > 0 {
                let _ = report_tally(rt, tally);
            }
            if tally.bad > passed { BAD } else { DONE }
        }
        Err(TraceFault::Write) if is_pipe_closed => return DEVICE,
        Err(fault) => return report_fault(rt, &fault),
    };
    match audited {
        Ok(audited) => {
            let orders = audited.unfollowed.as_slice();
            let _ = write_unfollowed(&mut rt.stderr(), Counted::ChunksOfConnection, orders);
            shown
        }
        Err(TraceFault::Write) if is_pipe_closed => DEVICE,
        Err(fault) => report_fault(rt, &fault),
    }
}

/// Reports that what passes can't be shown, and answers the exit status of that.
fn report_fault(rt: &HostRuntime, fault: &TraceFault) -> u8 {
    let _ = eprintln!(rt; "zvt: the line can't be shown: {fault}");
    match fault {
        TraceFault::Memory => MEMORY,
        _ => DEVICE,
    }
}
