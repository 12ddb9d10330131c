//! Payments over memory, which `bench/payments` times, and readings of a short message, which `bench/scan` counts.

ghost use Rattle.std.specs.Prelude.{◌≤◌};

use crate::ordering::order_at;
use std::alloc::{AllocError, Global};
use std::io::{self, Cursor};
use zvt_apdu::scan;
use zvt_bcd::{Amount, put};
use zvt_grammar::Scan;
use zvt_io::Over;
use zvt_stream::{Endpoint, Stream};
use zvt_till::{Event, Order, RunFault, Till, replay};

/// The most payments that a till's book holds.
const MOST: u32 = 10_000;

/// What the terminal answers to a registration: an acknowledgement and the completion.
pub const REGISTERED: [u8; 6] = [0x80, 0x00, 0x00, 0x06, 0x0F, 0x00];

/// What the terminal answers to a payment of 1234: an acknowledgement, an approval, and the completion.
pub const APPROVED: [u8; 25] = [
    0x80, 0x00, 0x00, 0x04, 0x0F, 0x10, 0x27, 0x00, 0x04, 0x00, 0x00, 0x00, 0x00, 0x12, 0x34, 0x0B,
    0x00, 0x00, 0x00, 0x87, 0x00, 0x01, 0x06, 0x0F, 0x00,
];

/// An authorisation of 1234.
const AUTHORISATION: [u8; 13] = [
    0x06, 0x01, 0x0A, 0x04, 0x00, 0x00, 0x00, 0x00, 0x12, 0x34, 0x49, 0x09, 0x78,
];

/// A way to spend time in the libraries.
#[derive(Clone, Copy)]
pub enum Work {
    /// The till is run over the events of its line.
    Replay,
    /// Each payment is an order that runs to its end over memory.
    Orders,
    /// A short message is read, a hundred times as often.
    Scan,
}

/// Does the work that many times, 10,000 at most, and prints what came of it.
pub fn run(rt: &HostRuntime, work: Work, times: u32) -> io::Result<()> {
    let times = times.min(MOST);
    match work {
        Work::Replay => match replayed(rt.alloc(), times) {
            Ok((entries, total)) => {
                println!(rt; "{times} payments replayed: {entries} booked, {total} in all")
            }
            Err(AllocError) => eprintln!(rt; "harness: too little memory"),
        },
        Work::Orders => match ordered(rt.alloc(), times) {
            Ok((entries, total)) => {
                println!(rt; "{times} payments ordered: {entries} booked, {total} in all")
            }
            Err(_) => eprintln!(rt; "harness: an order did not come to its end"),
        },
        Work::Scan => match scanned(rt.alloc(), 100 * times) {
            Ok(whole) => println!(rt; "{whole} messages scanned"),
            Err(AllocError) => eprintln!(rt; "harness: too little memory"),
        },
    }
}

/// How many of that many readings of a short message find it whole.
fn scanned(alloc: Global, times: u32) -> Result<u64, AllocError> {
    let mut whole = 0u64;
    for _ in 0..times {
        if let Scan::Whole((_, 13)) = scan(alloc, &AUTHORISATION)? {
            whole = whole.saturating_add(1);
        }
    }
    Ok(whole)
}

/// The worked price, in cents.
pub fn price() -> Amount {
    let Some(price) = Amount::new(1234) else {
        unreachable!()
    };
    price
}

/// What the terminal answers to a payment under this trace number.
pub fn approved(trace: u32) -> [u8; 25]
    requires { trace ≤ 10000 }
{
    let mut bytes = APPROVED;
    put(u64::from(trace), &mut bytes[16..19]);
    bytes
}

/// The bytes, as they came on the line.
fn piece(alloc: Global, bytes: &[u8]) -> Result<Event, AllocError> {
    let mut piece = Vec::new(alloc);
    piece.extend_from_slice(bytes)?;
    Ok(Event::Piece(piece))
}

/// The entries of the book after a replay of that many payments, and their sum.
fn replayed(alloc: Global, payments: u32) -> Result<(usize, u64), AllocError>
    requires { payments ≤ 10000 }
{
    let price = price();
    let mut events = Vec::new(alloc);
    events.push(Event::Connected)?;
    events.push(Event::Order(Order::Register))?;
    events.push(piece(alloc, &REGISTERED)?)?;
    for number in 0..payments {
        events.push(Event::Order(Order::Pay(price)))?;
        events.push(piece(alloc, &approved(number))?)?;
    }
    let run = replay(alloc, events.as_slice())?;
    Ok((run.till.book().len(), run.till.total()))
}

/// The entries of the book after that many orders to pay, each run to its end over memory, and their sum.
fn ordered(alloc: Global, payments: u32) -> Result<(usize, u64), RunFault>
    requires { payments ≤ 10000 }
{
    let price = price();
    let mut till = Till::with_defaults(alloc);
    till.connected();
    let mut end = Endpoint {
        reader: Over::new(REGISTERED.as_slice()),
        writer: Over::new(Vec::new(alloc)),
        stream: Stream::new(alloc),
    };
    order_at(alloc, &mut end, &mut till, Order::Register, 1)?;
    let mut end = Endpoint {
        reader: Over::new(Cursor::new(APPROVED)),
        writer: end.writer,
        stream: end.stream,
    };
    for number in 0..payments {
        end.reader = Over::new(Cursor::new(approved(number)));
        order_at(alloc, &mut end, &mut till, Order::Pay(price), 1)?;
    }
    Ok((till.book().len(), till.total()))
}
