//! The loop over all sockets. The proofs of this module show that it is safe; the behaviour of sockets is the system's.

use crate::asks::Desk;
use crate::clients::Clients;
use crate::clock::{Moment, Stopwatch};
use crate::host::{Host, Watch};
use crate::line::{Line, TERMINAL, TerminalOptions};
use mio::net::TcpListener;
use mio::{Events, Interest, Poll, Token};
use std::alloc::Global;
use std::io;
use std::net::{Net, SocketAddr};
use std::rt::Clock;
use std::time::Duration;
use zvt_journal::Device;
use zvt_service::Service;
use zvt_web::Guards;

/// The token under which the listener is registered.
const DOOR: Token = Token(0);

/// The most events that one wait reports.
const REPORTED: usize = 256;

/// Milliseconds after which the loop looks at its clocks.
const TICK_MS: u64 = 200;

/// Milliseconds for clients to receive their last answers once the service stops.
const FAREWELL_MS: u64 = 5000;

/// How a server is reached, and how it reaches the terminal.
#[derive(Clone, Copy, Debug, Drop)]
pub struct ServerOptions {
    /// The address to listen at. Port 0 takes a free port.
    pub address: SocketAddr,
    pub terminal: TerminalOptions,
    /// The number of clients that are served at a time.
    pub clients: usize,
}

/// A till for HTTP clients: one loop over the sockets of the clients and of the terminal.
#[derive(Drop)]
pub struct Server {
    alloc: Global,
    poll: Poll,
    events: Events,
    listener: TcpListener,
    clients: Clients,
    terminal: TerminalOptions,
    /// Whether more connections may wait to be accepted.
    has_arrivals: bool,
    /// When the service could have ended, had all clients received their answers.
    done: Option<Moment>,
}

impl Server {
    /// Listens. Serves nobody before [`run`](Server::run).
    pub fn bind<R: Net>(rt: &R, alloc: Global, options: &ServerOptions) -> io::Result<Server> {
        let mut listener = TcpListener::bind(rt, options.address)?;
        let poll = Poll::new(rt)?;
        let events = Events::with_capacity(alloc, REPORTED)?;
        poll.registry()
            .register(&mut listener, DOOR, Interest::READABLE)?;
        Ok(Server {
            alloc,
            poll,
            events,
            listener,
            clients: Clients::new(alloc, options.clients)?,
            terminal: options.terminal,
            has_arrivals: false,
            done: None,
        })
    }

    /// Returns the address at which the server listens.
    pub fn address(&self) -> io::Result<SocketAddr> {
        self.listener.local_addr()
    }

    /// Serves clients that pass the guards until one sends `POST /stop`, or the host cannot record what passes on the line
    /// to the terminal. After `POST /stop` the running order ends first. What is unsent is sent.
    ///
    /// Fails if the system cannot say what is ready, or what time it is. Orders that were sent are in the book, so
    /// another server can go on with it.
    pub fn run<R: Net + Clock, D: Device, H: Host>(
        &mut self,
        rt: &R,
        guards: &Guards,
        service: &mut Service<D>,
        host: &mut H,
    ) -> io::Result<()> {
        let stopwatch = Stopwatch::start(rt)?;
        let terminal = self.terminal;
        let mut watch = Watch::new(self.alloc, terminal.form, host);
        let mut desk = Desk::new(self.alloc, service, Line::new(terminal), &mut watch);
        let ended = self.serve(rt, guards, &mut desk, &stopwatch);
        desk.close();
        ended
    }

    /// Makes turns until the service stops.
    fn serve<R: Net + Clock, D: Device, H: Host>(
        &mut self,
        rt: &R,
        guards: &Guards,
        desk: &mut Desk<'_, '_, '_, D, H>,
        stopwatch: &Stopwatch,
    ) -> io::Result<()> {
        for _turn in 0..u64::MAX {
            let last = desk.watch.log.last();
            self.wait(&mut desk.line, last)?;
            let now = stopwatch.now(rt)?;
            self.turn(rt, guards, desk, now);
            if self.is_done(desk, now) {
                return Ok(());
            }
        }
        Ok(())
    }

    /// Waits until a socket is ready, and for a short time at most. `last` is the number of the last event.
    fn wait(&mut self, line: &mut Line, last: u64) -> io::Result<()> {
        let is_busy = self.has_arrivals || line.is_ready() || self.clients.is_ready(last);
        let time = Duration::from_millis(if is_busy { 0 } else { TICK_MS });
        self.poll.poll(&mut self.events, Some(time))?;
        for event in self.events.iter() {
            let token = event.token();
            if token == DOOR {
                self.has_arrivals = true;
            } else if token == TERMINAL {
                line.note_ready();
            } else {
                self.clients.note_ready(token);
            }
        }
        Ok(())
    }

    /// Serves the terminal first, so that clients are told at once how their orders ended.
    fn turn<R: Net + Clock, D: Device, H: Host>(
        &mut self,
        rt: &R,
        guards: &Guards,
        desk: &mut Desk<'_, '_, '_, D, H>,
        now: Moment,
    ) {
        if self.has_arrivals {
            self.has_arrivals = self.clients.accept(&self.poll, &self.listener, now);
        }
        desk.line
            .turn(rt, self.alloc, &self.poll, desk.service, desk.watch, now);
        desk.report_ends();
        self.clients.turn(rt, guards, desk, now);
    }

    /// Returns whether the service stops now: no order is running, and each client has its answer or had time for it.
    fn is_done<D: Device, H: Host>(&mut self, desk: &Desk<'_, '_, '_, D, H>, now: Moment) -> bool {
        if !desk.is_stopping() || desk.has_running() {
            return false;
        }
        if !self.clients.are_owed() {
            return true;
        }
        match self.done {
            Some(done) => now.is_late(done, FAREWELL_MS),
            None => {
                self.done = Some(now);
                false
            }
        }
    }
}
