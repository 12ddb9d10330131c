//! The clients: their sockets, and the limits on them. The proofs of this module show that it is safe and terminates;
//! the behaviour of sockets is the system's.

mod client;

use crate::asks::Desk;
use crate::clock::Moment;
use crate::host::Host;
use bytes::BytesMut;
use client::Client;
use mio::net::{TcpListener, TcpStream};
use mio::{Interest, Poll, Token};
use std::alloc::{AllocError, Global};
use std::io::Write;
use std::rt::Clock;
use zvt_journal::Device;
use zvt_web::{Guards, Refusal};

/// The token of the first client. Those of the listener and the terminal are below it.
const FIRST: usize = 2;

/// The most connections that are accepted in a turn.
const ACCEPTED: usize = 64;

/// The places of clients.
#[derive(Drop)]
pub(crate) struct Clients {
    alloc: Global,
    places: Vec<Option<Client>>,
}

impl Clients {
    /// Creates this number of places, at least one.
    pub(crate) fn new(alloc: Global, count: usize) -> Result<Clients, AllocError> {
        let mut places: Vec<Option<Client>> = Vec::new(alloc);
        for _place in 0..count.max(1) {
            places.push(None)?;
        }
        Ok(Clients { alloc, places })
    }

    /// Accepts the connections that have come. Returns whether there may be more.
    pub(crate) fn accept(&mut self, poll: &Poll, listener: &TcpListener, now: Moment) -> bool {
        for _connection in 0..ACCEPTED {
            let Ok((socket, _)) = listener.accept() else {
                return false;
            };
            self.admit(poll, socket, now);
        }
        true
    }

    /// Gives a new connection a place. If all are taken, the oldest client goes that has shown no token, or that sends
    /// nothing more, as one that gave up while its order is running. If there is none, the new connection is refused.
    fn admit(&mut self, poll: &Poll, mut socket: TcpStream, now: Moment) {
        let _ = socket.set_nodelay(true);
        let Some(at) = self.free_place().or(self.replaceable()) else {
            refuse(self.alloc, &mut socket);
            return;
        };
        let Some(place) = self.places.get_mut(at) else {
            return;
        };
        *place = None;
        let both = Interest::READABLE | Interest::WRITABLE;
        if poll
            .registry()
            .register(&mut socket, Token(at.saturating_add(FIRST)), both)
            .is_ok()
        {
            *place = Some(Client::new(self.alloc, socket, now));
        }
    }

    fn free_place(&self) -> Option<usize> {
        self.places.iter().position(|place| place.is_none())
    }

    /// Returns the place of the oldest client that may be replaced.
    fn replaceable(&self) -> Option<usize> {
        let mut oldest: Option<(usize, Moment)> = None;
        for (at, place) in self.places.iter().enumerate() {
            if let Some(client) = place
                && let Some(came) = client.came_if_replaceable()
                && is_older(came, &oldest)
            {
                oldest = Some((at, came));
            }
        }
        match oldest {
            Some((at, _)) => Some(at),
            None => None,
        }
    }

    /// Notes that the system reported the client with this token.
    pub(crate) fn note_ready(&mut self, token: Token) {
        let Some(at) = token.0.checked_sub(FIRST) else {
            return;
        };
        if let Some(Some(client)) = self.places.get_mut(at) {
            client.note_ready();
        }
    }

    /// Serves each client, and closes the connections that are over.
    pub(crate) fn turn<C: Clock, D: Device, H: Host>(
        &mut self,
        clock: &C,
        guards: &Guards,
        desk: &mut Desk<'_, '_, '_, D, H>,
        now: Moment,
    ) {
        for place in self.places.iter_mut() {
            if let Some(client) = place
                && !client.turn(clock, guards, desk, now)
            {
                *place = None;
            }
        }
    }

    /// Returns whether there is something to do for a client at once. `last` is the number of the last event.
    pub(crate) fn is_ready(&self, last: u64) -> bool {
        self.places.iter().any(|place| match place {
            Some(client) => client.is_ready(last),
            None => false,
        })
    }

    /// Returns whether a client waits for an answer, or has not received all of one.
    pub(crate) fn are_owed(&self) -> bool {
        self.places.iter().any(|place| match place {
            Some(client) => client.is_owed(),
            None => false,
        })
    }
}

/// Returns whether a client came before the oldest that was found so far.
fn is_older(came: Moment, oldest: &Option<(usize, Moment)>) -> bool {
    match oldest {
        Some((_, first)) => came.is_before(*first),
        None => true,
    }
}

/// Sends a connection for which there is no place the reason, if that can be done at once.
fn refuse(alloc: Global, socket: &mut TcpStream) {
    let mut body = Vec::new(alloc);
    let mut out = BytesMut::new(alloc);
    if Refusal::Busy.put_body(&mut body).is_err() {
        return;
    }
    let length = body.len();
    let Ok(head) = format!(in alloc;
        "HTTP/1.1 503 Service Unavailable\r\ncontent-type: application/json\r\ncache-control: no-store\r\n\
            connection: close\r\nretry-after: 1\r\ncontent-length: {length}\r\n\r\n"
    ) else {
        return;
    };
    if out.extend_from_slice(head.as_bytes()).is_err() || out.extend_from_slice(&body).is_err() {
        return;
    }
    let _ = socket.write(out.as_slice());
}
