//! The line to the terminal. The proofs of this module show that it is safe and terminates; the behaviour of sockets is
//! the system's.
ghost use Rattle.std.specs.Prelude.{◌≤◌, length};

mod connection;

use crate::asking::asks_by_itself;
use crate::clock::{Moment, timed_note};
use crate::host::{Host, Watch};
use connection::{Connection, Received};
use mio::net::TcpStream;
use mio::{Interest, Poll, Token};
use std::alloc::Global;
use std::net::{Net, SocketAddr};
use std::rt::Clock;
use zvt_apdu::MAX_BRIEF_LEN;
use zvt_journal::Device;
use zvt_kept::Note;
use zvt_service::{Service, Ungiven};
use zvt_stream::{LineForm, Machine, Stream};
use zvt_till::{Order, Untaken};
use zvt_trace::Direction;

/// The token under which the line is registered.
pub(crate) const TERMINAL: Token = Token(1);

/// Milliseconds from a lost line or a failed try to the next try.
const RETRY_MS: u64 = 1000;

/// Milliseconds for the terminal to accept a connection.
const CONNECT_MS: u64 = 5000;

/// Milliseconds from a refused registration to the next one. Each is recorded in the book.
const REGISTER_MS: u64 = 30_000;

/// The most reads in a turn. What is left is read in the next turn, so that clients are served in between.
const READS: usize = 16;

/// How the terminal is reached.
#[derive(Clone, Copy, Debug, Drop)]
pub struct TerminalOptions {
    pub address: SocketAddr,
    /// How its messages are read.
    pub form: LineForm,
    /// The seconds for which it may be silent while an order is running.
    pub timeout: u16,
    /// Whether the till asks it for the last transaction by itself.
    pub asks: bool,
}

/// The line to the terminal, which is opened again whenever it was lost.
#[derive(Drop)]
pub(crate) struct Line {
    options: TerminalOptions,
    connection: Option<Connection>,
    /// When the last connection was lost or could not be opened.
    lost: Option<Moment>,
}

impl Line {
    pub(crate) fn new(options: TerminalOptions) -> Line {
        Line {
            options,
            connection: None,
            lost: None,
        }
    }

    /// Notes that the system reported the line.
    pub(crate) fn note_ready(&mut self) {
        if let Some(connection) = &mut self.connection {
            connection.is_ready = true;
        }
    }

    /// Returns whether there may be something to read.
    pub(crate) fn is_ready(&self) -> bool {
        match &self.connection {
            Some(connection) => connection.is_ready,
            None => false,
        }
    }

    /// Connects if it is time to, reads what the terminal sent, lets the till ask once it has registered, and gives up
    /// a line that is silent for too long.
    pub(crate) fn turn<R: Net + Clock, D: Device, H: Host>(
        &mut self,
        rt: &R,
        alloc: Global,
        poll: &Poll,
        service: &mut Service<D>,
        watch: &mut Watch<'_, H>,
        now: Moment,
    ) {
        match &self.connection {
            None if service.has_failed() || watch.is_broken() => {}
            None => self.open(rt, alloc, poll, now),
            Some(connection) if !connection.is_up => {
                if connection.is_ready {
                    self.begin(rt, alloc, service, watch, now);
                } else if now.is_late(connection.active, CONNECT_MS) {
                    self.lose(service, watch, now);
                }
            }
            Some(connection) => {
                if connection.is_ready {
                    self.read(alloc, service, watch, now);
                }
                self.ask_by_itself(rt, alloc, service, watch, now);
                self.tend(service, watch, now);
            }
        }
    }

    /// Begins to connect, unless that was tried a moment ago.
    fn open<R: Net>(&mut self, rt: &R, alloc: Global, poll: &Poll, now: Moment) {
        if let Some(lost) = self.lost
            && !now.is_late(lost, RETRY_MS)
        {
            return;
        }
        self.lost = Some(now);
        let Ok(mut socket) = TcpStream::connect(rt, self.options.address) else {
            return;
        };
        let both = Interest::READABLE | Interest::WRITABLE;
        if poll
            .registry()
            .register(&mut socket, TERMINAL, both)
            .is_err()
        {
            return;
        }
        self.connection = Some(Connection {
            socket,
            stream: Stream::reading(alloc, self.options.form),
            is_up: false,
            is_ready: false,
            has_registered: false,
            active: now,
        });
    }

    /// Registers the till on a line that the terminal accepted.
    fn begin<C: Clock, D: Device, H: Host>(
        &mut self,
        clock: &C,
        alloc: Global,
        service: &mut Service<D>,
        watch: &mut Watch<'_, H>,
        now: Moment,
    ) {
        if !self.is_accepted(now) || service.connect(alloc).is_err() {
            self.lose(service, watch, now);
            return;
        }
        let note = timed_note(clock);
        if self
            .order(alloc, service, watch, &Order::Register, &note, now)
            .is_err()
        {
            self.lose(service, watch, now);
        }
    }

    /// Returns whether the terminal accepted the connection.
    fn is_accepted(&mut self, now: Moment) -> bool {
        let Some(connection) = &mut self.connection else {
            return false;
        };
        if connection.socket.peer_addr().is_err() {
            return false;
        }
        let _ = connection.socket.set_nodelay(true);
        connection.is_up = true;
        connection.active = now;
        true
    }

    /// Reads what the terminal sent.
    fn read<D: Device, H: Host>(
        &mut self,
        alloc: Global,
        service: &mut Service<D>,
        watch: &mut Watch<'_, H>,
        now: Moment,
    ) {
        let mut buffer = [0; 1024];
        for _read in 0..READS {
            if !self.read_once(alloc, service, watch, &mut buffer, now) {
                return;
            }
        }
    }

    /// Reads once, and returns whether there may be more.
    fn read_once<D: Device, H: Host>(
        &mut self,
        alloc: Global,
        service: &mut Service<D>,
        watch: &mut Watch<'_, H>,
        buffer: &mut [u8; 1024],
        now: Moment,
    ) -> bool {
        let Some(connection) = &mut self.connection else {
            return false;
        };
        let is_sound = match connection.receive(buffer) {
            Received::Nothing => {
                connection.is_ready = false;
                return false;
            }
            Received::Bytes(count) => {
                connection.active = now;
                let bytes = &buffer[..count.min(1024)];
                let is_seen = watch.see(Direction::FromTerminal, bytes);
                connection.hear(alloc, service, watch, bytes) && is_seen
            }
            Received::Lost => false,
        };
        if !is_sound {
            self.lose(service, watch, now);
        }
        is_sound
    }

    /// Lets the till ask its terminal when it has registered, if an answer can be of use.
    fn ask_by_itself<C: Clock, D: Device, H: Host>(
        &mut self,
        clock: &C,
        alloc: Global,
        service: &mut Service<D>,
        watch: &mut Watch<'_, H>,
        now: Moment,
    ) {
        let Some(connection) = &mut self.connection else {
            return;
        };
        let was_registered = connection.has_registered;
        connection.has_registered = was_registered || service.till().registered();
        if self.options.asks && asks_by_itself(was_registered, service.settling()) {
            let _ = self.ask(alloc, service, watch, &timed_note(clock), now);
        }
    }

    /// Gives up a line on which the terminal is silent while an order or an ask is running, and one on which the till
    /// could not be registered.
    fn tend<D: Device, H: Host>(
        &mut self,
        service: &mut Service<D>,
        watch: &mut Watch<'_, H>,
        now: Moment,
    ) {
        let Some(connection) = &self.connection else {
            return;
        };
        let limit = if !service.resting() {
            u64::from(self.options.timeout) * 1000
        } else if !service.till().registered() {
            REGISTER_MS
        } else {
            u64::MAX
        };
        if !service.till().line_up() || now.is_late(connection.active, limit) {
            self.lose(service, watch, now);
        }
    }

    /// Gives the till an order, and sends its message. If that cannot be sent at once, the line is lost; the order was
    /// given nevertheless.
    pub(crate) fn order<D: Device, H: Host>(
        &mut self,
        alloc: Global,
        service: &mut Service<D>,
        watch: &mut Watch<'_, H>,
        order: &Order,
        note: &Note,
        now: Moment,
    ) -> Result<(), Ungiven> {
        let outgoing = match service.order(alloc, order, note) {
            Ok(outgoing) => outgoing,
            Err(why) => return Err(why),
        };
        let mut buffer = [0; MAX_BRIEF_LEN];
        let count = outgoing.put(&mut buffer);
        self.send(service, watch, &buffer[..count], now);
        Ok(())
    }

    /// Lets the till ask its terminal for the last transaction. The line is lost if the message cannot be sent at once.
    pub(crate) fn ask<D: Device, H: Host>(
        &mut self,
        alloc: Global,
        service: &mut Service<D>,
        watch: &mut Watch<'_, H>,
        note: &Note,
        now: Moment,
    ) -> Result<(), Untaken> {
        let message = match service.ask(alloc, note) {
            Ok(message) => message,
            Err(why) => return Err(why),
        };
        self.send(service, watch, &message, now);
        Ok(())
    }

    /// Sends a message of the till. If that cannot be done at once, the line is lost.
    fn send<D: Device, H: Host>(
        &mut self,
        service: &mut Service<D>,
        watch: &mut Watch<'_, H>,
        bytes: &[u8],
        now: Moment,
    ) {
        let was_sent = match &mut self.connection {
            Some(connection) => {
                connection.active = now;
                connection.send(watch, bytes)
            }
            None => false,
        };
        if !was_sent {
            self.lose(service, watch, now);
        }
    }

    /// Gives up the line, until the next try is due.
    fn lose<D: Device, H: Host>(
        &mut self,
        service: &mut Service<D>,
        watch: &mut Watch<'_, H>,
        now: Moment,
    ) {
        self.lost = Some(now);
        self.close(service, watch);
    }

    /// Closes the connection, if there is one, and tells the till that its line is lost.
    pub(crate) fn close<D: Device, H: Host>(
        &mut self,
        service: &mut Service<D>,
        watch: &mut Watch<'_, H>,
    ) {
        if let Some(connection) = &self.connection
            && connection.is_up
        {
            watch.see_loss();
        }
        self.connection = None;
        service.lost();
    }
}
