//! Opens sockets, or says why it cannot.
ghost use Rattle.std.specs.Prelude.{◌≡◌, ◌+◌, ◌*◌, IfOk, MatchResult};
ghost use Rattle.std.specs.Duration.{as_nanos};
ghost use Rattle.std.specs.IoError.{error_kind};
ghost use Rattle.zvt_runs.specs.Connecting.{given_by, why_of};

use crate::NetFault;
use std::io;
use std::io::ErrorKind;
use std::net::{HostAddrs, Net, SocketAddr, TcpListener, TcpStream, ToSocketAddrs};
use std::os::fd::{AsRawFd, RawFd};
use std::time::Duration;
use zvt_io::GhostCount;

/// Default timeout of a till in seconds, for each read and for each write (PA00P015, overall timeout of a command).
pub const PATIENCE_SECONDS: u16 = 180;

/// Timeout in seconds for connecting, and for the other ends of a line.
pub const SILENCE_SECONDS: u16 = 60;

/// The local address of this machine.
const HERE: &str = "127.0.0.1";

/// Returns why a call that opens a connection failed.
fn why(error: &io::Error) -> NetFault
    ensures { result ≡ why_of (error_kind error.now) }
{
    match error.kind() {
        ErrorKind::ConnectionRefused => NetFault::Refused,
        ErrorKind::AddrInUse => NetFault::InUse,
        ErrorKind::AddrNotAvailable => NetFault::Elsewhere,
        ErrorKind::PermissionDenied => NetFault::NotAllowed,
        ErrorKind::HostUnreachable | ErrorKind::NetworkUnreachable => NetFault::Unreachable,
        ErrorKind::TimedOut => NetFault::Silent,
        _ => NetFault::Other,
    }
}

/// Opens a connection of this process to itself, and returns both ends.
pub(crate) fn both_ends<R>(rt: &R) -> Result<(TcpStream, TcpStream), NetFault>
where
    R: Net<Listener = TcpListener, Stream = TcpStream>,
{
    open_both(rt).map_err(|error| why(&error))
}

fn open_both<R>(rt: &R) -> io::Result<(TcpStream, TcpStream)>
where
    R: Net<Listener = TcpListener, Stream = TcpStream>,
{
    let listener = TcpListener::bind(rt, (HERE, 0))?;
    let till_end = TcpStream::connect(rt, listener.local_addr()?)?;
    let (terminal_end, _) = listener.accept()?;
    limit(&till_end, SILENCE_SECONDS)?;
    limit(&terminal_end, SILENCE_SECONDS)?;
    Ok((till_end, terminal_end))
}

/// Connects to the terminal at this host and port. `seconds` is the timeout for each read and for each write, and for
/// connecting if it is at most `SILENCE_SECONDS`; zero is an error.
pub fn connect<R>(rt: &R, host: &str, port: u16, seconds: u16) -> Result<TcpStream, NetFault>
where
    R: Net<Listener = TcpListener, Stream = TcpStream>,
{
    connect_to(rt, addresses(rt, host, port)?, seconds).map_err(|error| why(&error))
}

/// Connects to the first reachable address.
fn connect_to<R>(rt: &R, addresses: HostAddrs, seconds: u16) -> io::Result<TcpStream>
where
    R: Net<Listener = TcpListener, Stream = TcpStream>,
{
    let mut last = io::Error::from(ErrorKind::NotFound);
    for address in addresses {
        match TcpStream::connect_timeout(rt, &address, silence(seconds.min(SILENCE_SECONDS))) {
            Ok(end) => {
                limit(&end, seconds)?;
                return Ok(end);
            }
            Err(error) => last = error,
        }
    }
    Err(last)
}

/// A listening socket. Its model counts the connections that it accepted.
#[derive(Drop)]
pub struct Door {
    pub(crate) listener: TcpListener,
    gave: GhostCount,
}

impl Door {
    ghost use Rattle.zvt_runs.specs.Connecting.{given_by};

    /// Returns the door of this listener, which has accepted no connection yet.
    pub(crate) fn of(listener: TcpListener) -> Door
        ensures { given_by result ≡ 0 }
    {
        Door {
            listener,
            gave: GhostCount::zero(),
        }
    }

    /// Returns the address that the socket listens on.
    pub fn address(&self) -> io::Result<SocketAddr> {
        self.listener.local_addr()
    }

    /// Returns the file descriptor, which becomes readable when a connection arrives.
    pub fn descriptor(&self) -> RawFd {
        self.listener.as_raw_fd()
    }

    /// Makes `next` return immediately, with an error if no connection has arrived; or makes it wait again.
    pub fn set_nonblocking(&self, is_nonblocking: bool) -> io::Result<()> {
        self.listener.set_nonblocking(is_nonblocking)
    }

    /// Accepts the next connection, and returns the terminal's end of it. Waits without limit, unless the socket is
    /// nonblocking. If the result is an error, no connection was accepted.
    pub fn next(&mut self) -> Result<TcpStream, NetFault>
        ensures { MatchResult result (λ _. given_by self.new ≡ given_by self.old + 1)
            (λ _. given_by self.new ≡ given_by self.old) }
    {
        match accept_next(&self.listener) {
            Ok(end) => {
                self.gave = self.gave.next();
                Ok(end)
            }
            Err(error) => Err(why(&error)),
        }
    }
}

/// Listens on this port of this host. Port 0 chooses a free port.
pub fn listen<R>(rt: &R, host: &str, port: u16) -> Result<Door, NetFault>
where
    R: Net<Listener = TcpListener, Stream = TcpStream>,
    ensures { IfOk result (λ door. given_by door ≡ 0) }
{
    match listen_at(rt, addresses(rt, host, port)?) {
        Ok(listener) => Ok(Door::of(listener)),
        Err(error) => Err(why(&error)),
    }
}

/// Listens on the first address on which that is possible.
fn listen_at<R>(rt: &R, addresses: HostAddrs) -> io::Result<TcpListener>
where
    R: Net<Listener = TcpListener, Stream = TcpStream>,
{
    let mut last = io::Error::from(ErrorKind::NotFound);
    for address in addresses {
        match TcpListener::bind(rt, address) {
            Ok(listener) => return Ok(listener),
            Err(error) => last = error,
        }
    }
    Err(last)
}

fn accept_next(listener: &TcpListener) -> io::Result<TcpStream> {
    let (end, _) = listener.accept()?;
    end.set_nodelay(true)?;
    Ok(end)
}

/// Returns the addresses of a host at this port.
fn addresses<R: Net>(rt: &R, host: &str, port: u16) -> Result<HostAddrs, NetFault> {
    match (host, port).to_socket_addrs(rt) {
        Ok(addresses) => Ok(addresses),
        Err(_) => Err(NetFault::UnknownHost),
    }
}

/// Seconds as a `Duration`.
fn silence(seconds: u16) -> Duration
    ensures { as_nanos result ≡ seconds * 1_000_000_000 }
{
    Duration::from_secs(u64::from(seconds))
}

/// Disables the delay of small messages, and sets the timeout of each read and write to this number of seconds.
fn limit(end: &TcpStream, seconds: u16) -> io::Result<()> {
    end.set_nodelay(true)?;
    end.set_read_timeout(Some(silence(seconds)))?;
    end.set_write_timeout(Some(silence(seconds)))
}
