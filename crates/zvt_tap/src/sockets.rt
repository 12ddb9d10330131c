//! A line between two sockets. The proofs of this module show that it is safe and terminates; the behaviour of sockets
//! is the system's.
use crate::fault::TapFault;
use crate::line::{Tapped, tap_line};
use crate::log::TapLog;
use crate::relay::{Ends, Readiness};
use mio::unix::SourceFd;
use mio::{Events, Interest, Poll, Token};
use std::alloc::Global;
use std::io::{self, ErrorKind, Read, Write};
use std::net::{IpAddr, Net, Shutdown, TcpListener, TcpStream};
use std::os::fd::{AsRawFd, RawFd};
use std::time::{Clock, Duration, Instant};
use zvt_io::{GhostCount, Over, Sink};
use zvt_trace::Direction;

/// For that many seconds a side may leave so much unread that no more can be sent to it.
const WRITE_SECONDS: u64 = 5;

/// A line that was silent for that many seconds makes way for a newer connection of its till. Each side has five
/// seconds to acknowledge a message, so nothing that was sent on such a line still waits for that.
pub const SILENT_SECONDS: u64 = 6;

/// The most connections that are held until the line ends. More of them wait with the system.
const MAX_NEWER: usize = 64;

const TILL: Token = Token(0);

const TERMINAL: Token = Token(1);

const DOOR: Token = Token(2);

/// The connections that come while a line goes on.
pub trait Arrivals {
    /// What can be read once one has come.
    fn descriptor(&self) -> RawFd;

    /// The next connection, if one has come. It does not wait.
    fn next(&mut self) -> Option<TcpStream>;
}

/// How a line between two sockets ended.
#[derive(Drop)]
pub struct SocketTapped<T, O> {
    pub tapped: Tapped<T, O>,
    /// The system's error where a side could not be read or written.
    pub error: Option<ErrorKind>,
    /// The line was silent, and made way for a newer connection of its till.
    pub was_replaced: bool,
    /// The connections that came while the line went on, in their order.
    pub newer: Vec<TcpStream>,
}

/// Forwards traffic between two sockets in both directions, as [`tap_line`] does. Small messages are sent immediately,
/// and half-closing is forwarded. Being unable to write to a side for five seconds is a fault.
///
/// A till that lost power leaves a connection that nobody ends. So once a newer connection has come from the address of
/// the till and the line was silent for [`SILENT_SECONDS`], both sides are closed.
pub fn tap_sockets<R, A, T: Sink + Drop, O: Sink + Drop>(
    rt: &R,
    alloc: Global,
    till: &TcpStream,
    terminal: &TcpStream,
    arrivals: &mut A,
    log: TapLog<T, O>,
) -> io::Result<SocketTapped<T, O>>
where
    R: Net<Listener = TcpListener, Stream = TcpStream> + Clock,
    A: Arrivals,
{
    set_up(till)?;
    set_up(terminal)?;
    let mut line = SocketLine {
        sockets: BothSockets::new(rt, alloc, till, terminal, arrivals)?,
        waits: GhostCount::zero(),
        failures: GhostCount::zero(),
    };
    let mut ends = Ends {
        till: Over::new(Half::of(till)),
        terminal: Over::new(Half::of(terminal)),
        to_terminal: Over::new(Half::of(terminal)),
        to_till: Over::new(Half::of(till)),
    };
    let tapped = tap_line(alloc, &mut line, &mut ends, log);
    let error = match tapped.ended {
        Err(TapFault::Read(Direction::FromTill)) => ends.till.inner.error,
        Err(TapFault::Read(Direction::FromTerminal)) => ends.terminal.inner.error,
        Err(TapFault::Write(Direction::FromTill)) => ends.to_terminal.inner.error,
        Err(TapFault::Write(Direction::FromTerminal)) => ends.to_till.inner.error,
        _ => None,
    };
    let BothSockets {
        was_replaced,
        newer,
        ..
    } = line.sockets;
    Ok(SocketTapped {
        tapped,
        error,
        was_replaced,
        newer,
    })
}

/// Small messages go out at once, and a write waits for a limited time.
fn set_up(socket: &TcpStream) -> io::Result<()> {
    socket.set_nodelay(true)?;
    socket.set_read_timeout(None)?;
    socket.set_write_timeout(Some(Duration::from_secs(WRITE_SECONDS)))
}

/// One half of a socket, which remembers why its last call failed.
#[derive(Drop)]
struct Half<'a> {
    socket: &'a TcpStream,
    error: Option<ErrorKind>,
}

impl<'a> Half<'a> {
    fn of(socket: &'a TcpStream) -> Half<'a> {
        Half {
            socket,
            error: None,
        }
    }
}

impl Read for Half<'_> {
    fn read(&mut self, buffer: &mut [u8]) -> io::Result<usize> {
        let answer = self.socket.read(buffer);
        if let Err(error) = &answer {
            self.error = Some(error.kind());
        }
        answer
    }
}

impl Write for Half<'_> {
    fn write(&mut self, bytes: &[u8]) -> io::Result<usize> {
        let answer = self.socket.write(bytes);
        if let Err(error) = &answer {
            self.error = Some(error.kind());
        }
        answer
    }

    fn flush(&mut self) -> io::Result<()> {
        Ok(())
    }
}

/// One side of a line, as it is waited for.
#[derive(Clone, Copy)]
struct Side {
    descriptor: RawFd,
    token: Token,
    /// Bytes can be read, or it has come to its end.
    is_ready: bool,
    /// It was read since it was waited for.
    was_read: bool,
    has_ended: bool,
}

impl Side {
    fn of(socket: &TcpStream, token: Token) -> Side {
        Side {
            descriptor: socket.as_raw_fd(),
            token,
            is_ready: false,
            was_read: false,
            has_ended: false,
        }
    }

    /// Has the system report it from now on.
    fn begin(&self, poll: &Poll) -> io::Result<()> {
        let mut source = SourceFd(&self.descriptor);
        poll.registry()
            .register(&mut source, self.token, Interest::READABLE)
    }

    /// Has the system report again what is left to read, where it was read since.
    fn go_on(&mut self, poll: &Poll) -> io::Result<()> {
        if !self.was_read || self.has_ended {
            return Ok(());
        }
        self.was_read = false;
        let mut source = SourceFd(&self.descriptor);
        poll.registry()
            .reregister(&mut source, self.token, Interest::READABLE)
    }

    /// Has the system report it no more.
    fn end(&mut self, poll: &Poll) {
        self.has_ended = true;
        let _ = poll.registry().deregister(&mut SourceFd(&self.descriptor));
    }

    /// Whether it is to be read now.
    fn take_ready(&mut self) -> bool {
        let was_ready = self.is_ready;
        self.is_ready = false;
        self.was_read |= was_ready;
        was_ready
    }
}

/// The sockets of both sides, and how they are waited for.
#[derive(Drop)]
struct BothSockets<'a, R, A> {
    rt: &'a R,
    poll: Poll,
    events: Events,
    till_socket: &'a TcpStream,
    terminal_socket: &'a TcpStream,
    till: Side,
    terminal: Side,
    /// The side of the last chunk: where both sides are ready, the other is read next.
    last: Direction,
    /// When the last chunk came, where the clock tells it.
    heard_at: Option<Instant>,
    arrivals: &'a mut A,
    newer: Vec<TcpStream>,
    /// One of the newer connections comes from the address of the till.
    has_successor: bool,
    was_replaced: bool,
}

impl<'a, R, A> BothSockets<'a, R, A>
where
    R: Net + Clock,
    A: Arrivals,
{
    fn new(
        rt: &'a R,
        alloc: Global,
        till_socket: &'a TcpStream,
        terminal_socket: &'a TcpStream,
        arrivals: &'a mut A,
    ) -> io::Result<BothSockets<'a, R, A>> {
        let poll = Poll::new(rt)?;
        let events = Events::with_capacity(alloc, 3)?;
        let till = Side::of(till_socket, TILL);
        let terminal = Side::of(terminal_socket, TERMINAL);
        till.begin(&poll)?;
        terminal.begin(&poll)?;
        let door = arrivals.descriptor();
        poll.registry()
            .register(&mut SourceFd(&door), DOOR, Interest::READABLE)?;
        Ok(BothSockets {
            rt,
            poll,
            events,
            till_socket,
            terminal_socket,
            till,
            terminal,
            last: Direction::FromTerminal,
            heard_at: Instant::now(rt).ok(),
            arrivals,
            newer: Vec::new(alloc),
            has_successor: false,
            was_replaced: false,
        })
    }

    /// A side that is ready, if one is.
    fn ready_side(&mut self) -> Option<Direction> {
        let from = match self.last {
            Direction::FromTill if self.terminal.take_ready() => Direction::FromTerminal,
            Direction::FromTill if self.till.take_ready() => Direction::FromTill,
            Direction::FromTerminal if self.till.take_ready() => Direction::FromTill,
            Direction::FromTerminal if self.terminal.take_ready() => Direction::FromTerminal,
            _ => return None,
        };
        self.last = from;
        Some(from)
    }

    /// Waits until a side is ready, a connection has come, a signal comes, or the line has been silent for too long.
    fn wait(&mut self) -> io::Result<()> {
        self.till.go_on(&self.poll)?;
        self.terminal.go_on(&self.poll)?;
        let patience = self.patience();
        self.poll.poll(&mut self.events, patience)?;
        let mut has_come = false;
        for event in self.events.iter() {
            if event.token() == TILL {
                self.till.is_ready = !self.till.has_ended;
            } else if event.token() == TERMINAL {
                self.terminal.is_ready = !self.terminal.has_ended;
            } else {
                has_come = true;
            }
        }
        if has_come {
            self.admit();
        }
        Ok(())
    }

    /// How long the line may still be silent, where a newer connection of its till waits for it. Once that is over,
    /// both sides are closed.
    fn patience(&mut self) -> Option<Duration> {
        if !self.has_successor || self.was_replaced {
            return None;
        }
        let silent = self.heard_at?.elapsed(self.rt).ok()?;
        let left = Duration::from_secs(SILENT_SECONDS).checked_sub(silent);
        if left.is_none() {
            self.was_replaced = true;
            let _ = self.till_socket.shutdown(Shutdown::Both);
            let _ = self.terminal_socket.shutdown(Shutdown::Both);
        }
        left
    }

    /// Takes the connections that have come.
    fn admit(&mut self) {
        let host = host_of(self.till_socket);
        for _one in self.newer.len()..MAX_NEWER {
            let Some(connection) = self.arrivals.next() else {
                return;
            };
            let is_successor = host.is_some() && host_of(&connection) == host;
            if self.newer.push(connection).is_err() {
                return;
            }
            self.has_successor |= is_successor;
        }
    }

    /// Waits until a side is ready.
    fn await_side(&mut self) -> io::Result<Direction> {
        for _try in 0..u64::MAX {
            if let Some(from) = self.ready_side() {
                self.heard_at = Instant::now(self.rt).ok();
                return Ok(from);
            }
            self.wait()?;
        }
        Err(io::Error::from(ErrorKind::TimedOut))
    }

    /// Hands on to the other side that no more bytes come from this one.
    fn end(&mut self, from: Direction) {
        let _ = match from {
            Direction::FromTill => {
                self.till.end(&self.poll);
                self.terminal_socket.shutdown(Shutdown::Write)
            }
            Direction::FromTerminal => {
                self.terminal.end(&self.poll);
                self.till_socket.shutdown(Shutdown::Write)
            }
        };
    }
}

/// The host at the other end of a connection.
fn host_of(connection: &TcpStream) -> Option<IpAddr> {
    let address = connection.peer_addr().ok()?;
    Some(address.ip())
}

/// Waits for two sockets at once. Contracts see how often it waited, and how often it could not.
#[derive(Drop)]
struct SocketLine<'a, R, A> {
    sockets: BothSockets<'a, R, A>,
    waits: GhostCount,
    failures: GhostCount,
}

impl<R: Net + Clock, A: Arrivals> Readiness for SocketLine<'_, R, A> {
    ghost waits = { λ line. line.waits.count };

    ghost failures = { λ line. line.failures.count };

    fn next(&mut self) -> Option<Direction> {
        self.waits = self.waits.next();
        match self.sockets.await_side() {
            Ok(from) => Some(from),
            Err(_) => {
                self.failures = self.failures.next();
                None
            }
        }
    }

    fn end(&mut self, from: Direction) {
        self.sockets.end(from);
    }
}
