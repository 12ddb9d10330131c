//! One connection to the terminal.
ghost use Rattle.std.specs.Prelude.{◌≤◌, length};

use crate::clock::Moment;
use crate::host::{Host, Watch};
use mio::net::TcpStream;
use std::alloc::Global;
use std::io::{ErrorKind, Read, Write};
use zvt_journal::Device;
use zvt_service::Service;
use zvt_stream::{FedView, Machine, Stream};
use zvt_trace::Direction;

/// A connection to the terminal.
#[derive(Drop)]
pub(super) struct Connection {
    pub(super) socket: TcpStream,
    pub(super) stream: Stream,
    /// Whether the terminal accepted the connection.
    pub(super) is_up: bool,
    /// Whether there may be something to read.
    pub(super) is_ready: bool,
    /// Whether the till has registered on it.
    pub(super) has_registered: bool,
    /// When it began to connect, was last heard, or was last sent something.
    pub(super) active: Moment,
}

/// What a read brought.
pub(super) enum Received {
    Bytes(usize),
    Nothing,
    /// The terminal closed the connection, or the read failed.
    Lost,
}

impl Connection {
    pub(super) fn receive(&mut self, buffer: &mut [u8; 1024]) -> Received {
        match self.socket.read(buffer) {
            Ok(0) => Received::Lost,
            Ok(count) => Received::Bytes(count),
            Err(error) if error.kind() == ErrorKind::WouldBlock => Received::Nothing,
            Err(error) if error.kind() == ErrorKind::Interrupted => Received::Nothing,
            Err(_) => Received::Lost,
        }
    }

    /// Sends these bytes, at most some hundred, at once, after the host has recorded them. Returns `false` if that cannot
    /// be done.
    pub(super) fn send<H: Host>(&mut self, watch: &mut Watch<'_, H>, bytes: &[u8]) -> bool {
        if bytes.is_empty() {
            return true;
        }
        watch.see(Direction::FromTill, bytes)
            && matches!(self.socket.write(bytes), Ok(count) if count == bytes.len())
    }

    /// Lets the till hear each message that ends in these bytes, and sends its answers before it hears the next. Returns
    /// `false` if the line is of no use any more.
    pub(super) fn hear<D: Device, H: Host>(
        &mut self,
        alloc: Global,
        service: &mut Service<D>,
        watch: &mut Watch<'_, H>,
        bytes: &[u8],
    ) -> bool {
        let mut rest = bytes;
        for _message in 0..bytes.len() {
            match self.stream.feed_view(rest) {
                Ok(FedView::Message { taken }) => {
                    if !self.answer(alloc, service, watch) {
                        return false;
                    }
                    rest = &rest[taken..];
                }
                Ok(FedView::More) => return true,
                Ok(FedView::Refused { .. }) => {
                    service.malformed();
                    return false;
                }
                Err(_) => return false,
            }
        }
        true
    }

    /// Lets the till hear the message that was found, and sends its answers.
    fn answer<D: Device, H: Host>(
        &mut self,
        alloc: Global,
        service: &mut Service<D>,
        watch: &mut Watch<'_, H>,
    ) -> bool {
        let Some(message) = self.stream.lent() else {
            return true;
        };
        match service.hear(alloc, &message) {
            Ok(answers) => self.send(watch, answers.bytes()),
            Err(_) => false,
        }
    }
}
