//! The ends of a line over TCP, whose traffic goes to a trace.
ghost use Rattle.std.specs.Prelude.{◌≡◌, ◌||◌, true, false, IfOk};
ghost use Rattle.zvt_grammar.specs.Lengths.{reading_of};
ghost use Rattle.zvt_stream.specs.LineReading.{reading_as};
ghost use Rattle.zvt_stream.specs.StreamState.{at_start, start_by, start_in};
ghost use Rattle.zvt_term.specs.Terminal.{new_terminal};

use crate::BothEnds;
use crate::tcp::options::RunTrace;
use crate::tcp::silence::Socket;
use crate::tcp::trace_file::{FileTrace, file_trace, marked_file};
use std::alloc::{AllocError, Global};
use std::io::Stderr;
use std::net::TcpStream;
use std::rt::Clock;
use zvt_grammar::Lengths;
use zvt_io::Over;
use zvt_show::Shown;
use zvt_stream::{Endpoint, LineForm, Stream};
use zvt_term::{DEFAULT_TID, Served, Terminal, Verdict};
use zvt_trace::{Both, Direction, Observed, Tally, ends_lacking};

/// An end over a connection that is not recorded.
pub(crate) type PlainEnd<'a> = Endpoint<Over<&'a TcpStream>, Over<&'a TcpStream>>;

/// One direction of a connection, whose bytes are observed.
pub(crate) type ObservedSocket<'a, K> = Observed<Over<Socket<'a>>, K>;

/// One direction of a connection, whose bytes go to the file of a trace, if there is one.
type TcpDevice<'a, C> = ObservedSocket<'a, FileTrace<'a, C>>;

/// A till's end of a connection, whose traffic goes to a trace. The bytes read may also be shown.
pub(crate) type TillLine<'a, C> = Endpoint<
    ObservedSocket<'a, Both<FileTrace<'a, C>, Option<Shown<Over<Stderr>, Tally>>>>,
    TcpDevice<'a, C>,
>;

/// One end of a connection, whose traffic goes to a trace.
pub(crate) type TcpEnd<'a, C> = Endpoint<TcpDevice<'a, C>, TcpDevice<'a, C>>;

/// Returns both ends of a new connection: this end for the till, and an end with a new terminal.
pub(crate) fn both_ends_of<'a, C: Clock>(
    alloc: Global,
    till: TcpEnd<'a, C>,
    terminal_end: &'a TcpStream,
) -> BothEnds<TcpEnd<'a, C>, PlainEnd<'a>>
    requires { till.stream ≡ at_start }
    ensures till { result.till ≡ till.entry }
    ensures terminal { result.terminal.stream ≡ at_start }
    ensures served { result.served.terminal ≡ new_terminal 12345678 }
{
    BothEnds {
        till,
        terminal: Endpoint {
            reader: Over::new(terminal_end),
            writer: Over::new(terminal_end),
            stream: Stream::of(alloc, Lengths::Shortest),
        },
        served: Served {
            terminal: Terminal::new(alloc, DEFAULT_TID),
            verdict: Verdict::Approve,
        },
    }
}

/// Returns the till's end of a new connection: it reads from the terminal and writes as the till.
pub(crate) fn till_end_of<'a, C: Clock>(
    clock: &'a C,
    alloc: Global,
    connection: &'a TcpStream,
    lengths: Lengths,
    trace: Option<RunTrace<'a>>,
) -> Result<TcpEnd<'a, C>, AllocError>
    ensures start { IfOk result (λ end. end.stream ≡ start_in (reading_of lengths)) }
    ensures sides { IfOk result (λ end. (end.reader.from ≡ Direction.FromTerminal)
        × (end.writer.from ≡ Direction.FromTill)) }
{
    Ok(Endpoint {
        reader: tcp_device(clock, alloc, Direction::FromTerminal, connection, trace)?,
        writer: tcp_device(clock, alloc, Direction::FromTill, connection, trace)?,
        stream: Stream::of(alloc, lengths),
    })
}

/// Returns the till's end of a new connection: it reads from the terminal, whose messages may be shown, and writes as
/// the till.
pub(crate) fn till_line_of<'a, C: Clock>(
    clock: &'a C,
    alloc: Global,
    connection: &'a TcpStream,
    line: LineForm,
    trace: Option<RunTrace<'a>>,
    shown: Option<Shown<Over<Stderr>, Tally>>,
) -> Result<TillLine<'a, C>, AllocError>
    ensures start { IfOk result (λ end. end.stream ≡ start_by (reading_as line)) }
    ensures sides { IfOk result (λ end. (end.reader.from ≡ Direction.FromTerminal)
        × (end.writer.from ≡ Direction.FromTill)) }
    ensures shown { IfOk result (λ end. end.reader.observer.second ≡ shown) }
{
    let observer = Both {
        first: file_trace(clock, alloc, trace)?,
        second: shown,
    };
    let socket = Over::new(Socket::new(connection));
    Ok(Endpoint {
        reader: Observed::new(Direction::FromTerminal, socket, observer),
        writer: tcp_device(clock, alloc, Direction::FromTill, connection, trace)?,
        stream: Stream::reading(alloc, line),
    })
}

/// Returns the terminal's end of a new connection: it reads from the till and writes as the terminal.
pub(crate) fn terminal_end_of<'a, C: Clock>(
    clock: &'a C,
    alloc: Global,
    connection: &'a TcpStream,
    line: LineForm,
    trace: Option<RunTrace<'a>>,
) -> Result<TcpEnd<'a, C>, AllocError>
    ensures start { IfOk result (λ end. end.stream ≡ start_by (reading_as line)) }
    ensures sides { IfOk result (λ end. (end.reader.from ≡ Direction.FromTill)
        × (end.writer.from ≡ Direction.FromTerminal)) }
{
    Ok(Endpoint {
        reader: tcp_device(clock, alloc, Direction::FromTill, connection, trace)?,
        writer: tcp_device(clock, alloc, Direction::FromTerminal, connection, trace)?,
        stream: Stream::reading(alloc, line),
    })
}

/// Returns one direction of a connection, whose bytes come from this side. Its trace is complete so far.
fn tcp_device<'a, C: Clock>(
    clock: &'a C,
    alloc: Global,
    from: Direction,
    connection: &'a TcpStream,
    trace: Option<RunTrace<'a>>,
) -> Result<TcpDevice<'a, C>, AllocError>
    ensures from { IfOk result (λ device. device.from ≡ from) }
    ensures whole { IfOk result (λ device. device.broken ≡ false) }
{
    let trace = file_trace(clock, alloc, trace)?;
    let socket = Over::new(Socket::new(connection));
    Ok(Observed::new(from, socket, trace))
}

/// Ends the trace of the line, and returns whether it is incomplete: bytes that were read or were about to be written,
/// or the end, could not be recorded.
pub(crate) fn is_broken<'a, C: Clock, K>(
    clock: &C,
    alloc: Global,
    end: &Endpoint<ObservedSocket<'a, K>, TcpDevice<'a, C>>,
    trace: Option<RunTrace<'_>>,
) -> bool
    ensures { (end.now.reader.broken || end.now.writer.broken) ≡ true → result ≡ true }
{
    let lacks = end.reader.broken || end.writer.broken;
    match trace {
        Some(trace) => ends_lacking(lacks, &mut marked_file(clock, alloc, trace)),
        None => lacks,
    }
}
