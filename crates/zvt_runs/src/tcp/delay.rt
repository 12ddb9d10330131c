//! The delay of a payment at a simulated terminal over TCP.
use crate::Delay;
use mio::unix::SourceFd;
use mio::{Events, Interest, Poll, Token};
use std::alloc::Global;
use std::io;
use std::net::{Net, TcpStream};
use std::os::fd::{AsRawFd, RawFd};
use std::rt::Clock;
use std::time::{Duration, Instant};

const TILL: Token = Token(0);

/// A delay in which a connection may bring bytes.
#[derive(Drop)]
pub(crate) struct SocketDelay<'a, R> {
    rt: &'a R,
    alloc: Global,
    descriptor: RawFd,
    length: Duration,
    /// When it started. `None` if the clock could not be read, and then it is over at once.
    start: Option<Instant>,
}

impl<'a, R: Net + Clock> SocketDelay<'a, R> {
    /// Returns a delay of this length in milliseconds, which has not started.
    pub(crate) fn new(
        rt: &'a R,
        alloc: Global,
        connection: &TcpStream,
        milliseconds: u16,
    ) -> SocketDelay<'a, R> {
        SocketDelay {
            rt,
            alloc,
            descriptor: connection.as_raw_fd(),
            length: Duration::from_millis(u64::from(milliseconds)),
            start: None,
        }
    }

    /// Returns the rest of the delay: zero if it is over.
    fn rest(&self) -> Duration {
        let Some(start) = self.start else {
            return Duration::from_secs(0);
        };
        match Instant::now(self.rt) {
            Ok(now) => self
                .length
                .saturating_sub(now.saturating_duration_since(start)),
            Err(_) => Duration::from_secs(0),
        }
    }

    /// Waits for bytes, or for the end of the connection, and returns whether they came within this time.
    fn wait(&self, limit: Duration) -> io::Result<bool> {
        let mut poll = Poll::new(self.rt)?;
        let mut events = Events::with_capacity(self.alloc, 1)?;
        let mut source = SourceFd(&self.descriptor);
        poll.registry()
            .register(&mut source, TILL, Interest::READABLE)?;
        poll.poll(&mut events, Some(limit))?;
        Ok(events.iter().next().is_some())
    }
}

impl<R: Net + Clock> Delay for SocketDelay<'_, R> {
    fn start(&mut self) {
        self.start = Instant::now(self.rt).ok();
    }

    fn is_over(&mut self) -> bool {
        !matches!(self.wait(self.rest()), Ok(true))
    }
}
