//! One client.

mod serving;

use crate::asks::Desk;
use crate::clock::Moment;
use crate::host::Host;
use bytes::BytesMut;
use mio::net::TcpStream;
use std::alloc::Global;
use std::io::{ErrorKind, Write};
use std::rt::Clock;
use zvt_journal::Device;
use zvt_web::{Connection, Guards, Request};

/// Milliseconds for a request to come whole after its first byte.
const REQUEST_MS: u64 = 10_000;

/// Milliseconds after which a connection closes on which nothing happens.
const IDLE_MS: u64 = 60_000;

/// The most bytes that wait to be received by a client.
const MAX_UNSENT: usize = 256 * 1024;

/// The most bytes that were received and not read.
const MAX_UNREAD: usize = 64 * 1024;

/// The most reads, writes, steps and events in a turn. What is left is done in the next turn.
const AT_ONCE: usize = 64;

/// What a client waits for.
#[derive(Drop)]
enum Waiting {
    Nothing,
    /// The end of the order with this key.
    End(Vec<u8>),
    /// The till's registration, for this request.
    Registration(Request),
    /// Events, from the one with this number on.
    Events(u64),
}

/// One client.
#[derive(Drop)]
pub(crate) struct Client {
    alloc: Global,
    socket: TcpStream,
    connection: Connection,
    input: BytesMut,
    output: BytesMut,
    waiting: Waiting,
    came: Moment,
    /// When the first byte of an unfinished request came.
    begun: Option<Moment>,
    /// When the client was last sent something, or began to wait.
    active: Moment,
    is_trusted: bool,
    /// There may be something to read from the socket.
    is_ready: bool,
    /// The input may have a step that was not taken.
    has_steps: bool,
    /// The client sends nothing more.
    has_ended: bool,
    /// The connection closes once the output is sent.
    closes: bool,
}

impl Client {
    pub(crate) fn new(alloc: Global, socket: TcpStream, now: Moment) -> Client {
        Client {
            alloc,
            socket,
            connection: Connection::new(alloc),
            input: BytesMut::new(alloc),
            output: BytesMut::new(alloc),
            waiting: Waiting::Nothing,
            came: now,
            begun: None,
            active: now,
            is_trusted: false,
            is_ready: true,
            has_steps: false,
            has_ended: false,
            closes: false,
        }
    }

    /// Returns when the client came, if it has shown no token yet, or sends nothing more.
    pub(crate) fn came_if_replaceable(&self) -> Option<Moment> {
        if self.is_trusted && !self.has_ended {
            None
        } else {
            Some(self.came)
        }
    }

    /// Notes that the system reported the client.
    pub(crate) fn note_ready(&mut self) {
        self.is_ready = true;
    }

    /// Returns whether there is something to do for the client at once. `last` is the number of the last event.
    pub(crate) fn is_ready(&self, last: u64) -> bool {
        self.may_read() || self.may_step() || self.has_news(last)
    }

    /// Returns whether there are events that the client has not been sent.
    fn has_news(&self, last: u64) -> bool {
        match &self.waiting {
            Waiting::Events(next) => *next <= last,
            _ => false,
        }
    }

    /// Returns whether the client waits for an answer, or has not received all of one.
    pub(crate) fn is_owed(&self) -> bool {
        match &self.waiting {
            Waiting::End(_) | Waiting::Registration(_) => true,
            Waiting::Nothing => !self.output.is_empty(),
            Waiting::Events(_) => false,
        }
    }

    /// Reads, serves and writes. Returns `false` if the connection is over.
    pub(crate) fn turn<C: Clock, D: Device, H: Host>(
        &mut self,
        clock: &C,
        guards: &Guards,
        desk: &mut Desk<'_, '_, '_, D, H>,
        now: Moment,
    ) -> bool {
        self.settle(clock, guards, desk, now)
            && self.receive(now)
            && self.serve(clock, guards, desk, now)
            && self.send_events(desk, now)
            && self.send(now)
            && self.stays(now)
    }

    /// Reads what the client sent.
    fn receive(&mut self, now: Moment) -> bool {
        for _read in 0..AT_ONCE {
            if !self.may_read() {
                return true;
            }
            if self.input.reserve(4096).is_err() {
                return false;
            }
            match self.input.read_from(&mut self.socket) {
                Ok(0) => {
                    self.has_ended = true;
                    return true;
                }
                Ok(_) => {
                    self.has_steps = true;
                    if self.begun.is_none() {
                        self.begun = Some(now);
                    }
                }
                Err(error) if error.kind() == ErrorKind::Interrupted => {}
                Err(error) => {
                    self.is_ready = false;
                    return error.kind() == ErrorKind::WouldBlock;
                }
            }
        }
        true
    }

    /// Returns whether there may be something to read, and room for it.
    fn may_read(&self) -> bool {
        self.is_ready && !self.has_ended && self.input.len() <= MAX_UNREAD
    }

    /// Returns whether the next step of the input may be taken now.
    fn may_step(&self) -> bool {
        let waits_for_nothing = match &self.waiting {
            Waiting::Nothing => true,
            _ => false,
        };
        self.has_steps && waits_for_nothing && !self.closes && self.output.len() <= MAX_UNREAD
    }

    /// Sends what was written, as far as the client receives it.
    fn send(&mut self, now: Moment) -> bool {
        for _write in 0..AT_ONCE {
            if self.output.is_empty() {
                return true;
            }
            match self.socket.write(self.output.as_slice()) {
                Ok(count) => {
                    self.output.advance(count);
                    self.active = now;
                }
                Err(error) => return error.kind() == ErrorKind::WouldBlock
                    || error.kind() == ErrorKind::Interrupted,
            }
        }
        true
    }

    /// Returns whether the connection goes on.
    fn stays(&self, now: Moment) -> bool {
        let is_unsent = !self.output.is_empty();
        if self.output.len() > MAX_UNSENT {
            return false;
        }
        if self.closes || self.connection.is_closed() {
            return is_unsent && !now.is_late(self.active, REQUEST_MS);
        }
        match &self.waiting {
            Waiting::End(_) => true,
            Waiting::Registration(_) | Waiting::Events(_) => !self.has_ended,
            Waiting::Nothing => self.is_in_time(now),
        }
    }

    /// Returns whether a client that waits for nothing sends its request in time, and receives its answers in time.
    fn is_in_time(&self, now: Moment) -> bool {
        if self.has_ended && !self.has_steps && self.output.is_empty() {
            return false;
        }
        if let Some(begun) = self.begun
            && now.is_late(begun, REQUEST_MS)
        {
            return false;
        }
        !now.is_late(self.active, IDLE_MS)
    }
}
