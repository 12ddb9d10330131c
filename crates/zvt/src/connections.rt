//! Sources of a script's connections.

use std::net::TcpStream;
use std::time::Duration;
use std::{io, thread};
use zvt_runs::NetFault;
use zvt_runs::tcp::{Door, SILENCE_SECONDS, connect, listen};

/// The source of a script's connections.
#[derive(Drop)]
pub enum Place<'a> {
    /// They are made to this port of this host.
    To(&'a str, u16),
    /// They come in here.
    From(Door),
}

/// Seconds to wait for the first connection of a situation, whose steps a person has to carry out.
pub const FIRST_SECONDS: u32 = 600;

/// Seconds to wait for each further connection.
pub const CONNECTION_SECONDS: u32 = 60;

/// How many milliseconds pass between two looks for a connection.
const LOOK_MILLISECONDS: u32 = 10;

/// Returns the source of the connections.
pub fn place_at<'a>(
    rt: &HostRuntime,
    port: Option<u16>,
    awaited_at: Option<u16>,
    host: &'a str,
) -> Result<Place<'a>, NetFault> {
    match (port, awaited_at) {
        (None, Some(port)) => Ok(Place::From(listen(rt, host, port)?)),
        (port, _) => Ok(Place::To(host, port.unwrap_or(0))),
    }
}

/// Reports where the other side is awaited.
pub fn report_address(rt: &HostRuntime, place: &Place<'_>) -> io::Result<()> {
    match place {
        Place::To(..) => Ok(()),
        Place::From(door) => {
            let address = door.address()?;
            eprintln!(rt; "zvt: the other side is awaited at {address}")
        }
    }
}

/// Returns the next connection, and waits for an incoming one for the given number of seconds, or without limit.
pub fn next_connection(
    rt: &HostRuntime,
    place: &mut Place<'_>,
    seconds: Option<u32>,
) -> Result<TcpStream, NetFault> {
    let door = match place {
        Place::To(host, port) => return connect(rt, host, *port, SILENCE_SECONDS),
        Place::From(door) => door,
    };
    let next = match seconds {
        None => door.next(),
        Some(seconds) => next_within(rt, door, seconds.saturating_mul(1_000)),
    };
    if let Ok(connection) = &next {
        limit_reads(connection, u32::from(SILENCE_SECONDS) * 1_000);
    }
    next
}

/// Returns the next connection if one comes in within the given number of milliseconds.
pub fn next_within(
    rt: &HostRuntime,
    door: &mut Door,
    milliseconds: u32,
) -> Result<TcpStream, NetFault> {
    if door.set_nonblocking(true).is_err() {
        return Err(NetFault::Other);
    }
    let mut found = Err(NetFault::Silent);
    for _ in 0..milliseconds / LOOK_MILLISECONDS {
        if let Ok(connection) = door.next() {
            found = Ok(connection);
            break;
        }
        thread::sleep(rt, Duration::from_millis(u64::from(LOOK_MILLISECONDS)));
    }
    let _ = door.set_nonblocking(false);
    found
}

/// Limits each read to the given number of milliseconds.
pub fn limit_reads(connection: &TcpStream, milliseconds: u32) {
    let longest = Duration::from_millis(u64::from(milliseconds.max(1)));
    let _ = connection.set_read_timeout(Some(longest));
}
