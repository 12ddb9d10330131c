//! A till on a line of its own: it registers, and is paid.

use std::io;
use std::net::TcpStream;
use zvt_bcd::Amount;
use zvt_io::{Over, Sink, Source};
use zvt_stream::{Endpoint, Stream};
use zvt_till::{Order, Outcome, RunFault, Till, run_order};

/// What a terminal answers to a registration: an acknowledgement and the completion.
const REGISTERED: [u8; 6] = [0x80, 0x00, 0x00, 0x06, 0x0F, 0x00];

/// What a terminal answers to a payment of 12.34: an acknowledgement, an approval under the trace number 17, the
/// completion.
const APPROVED: [u8; 25] = [
    0x80, 0x00, 0x00, 0x04, 0x0F, 0x10, 0x27, 0x00, 0x04, 0x00, 0x00, 0x00, 0x00, 0x12, 0x34, 0x0B,
    0x00, 0x00, 0x17, 0x87, 0x00, 0x05, 0x06, 0x0F, 0x00,
];

/// How often a till reads for one order, at most.
const TURNS: u64 = 1_000;

/// Registers and is paid over memory, and prints what became of it.
pub fn pay_in_memory(rt: &HostRuntime) -> io::Result<()> {
    let mut written = [0; 64];
    let mut line = Endpoint {
        reader: Over::new(REGISTERED.as_slice()),
        writer: Over::new(written.as_mut_slice()),
        stream: Stream::new(rt.alloc()),
    };
    let mut till = Till::with_defaults(rt.alloc());
    till.connected();
    print_order(rt, &mut line, &mut till, Order::Register)?;
    // A line in memory brings at once all that it has: each order gets the answers to itself.
    line.reader = Over::new(APPROVED.as_slice());
    print_payment(rt, &mut line, &mut till)
}

/// Registers and is paid at the terminal that listens at this host and port, and prints what became of it.
pub fn pay_at(rt: &HostRuntime, host: &str, port: u16) -> io::Result<()> {
    let socket = TcpStream::connect(rt, (host, port))?;
    socket.set_nodelay(true)?;
    let mut line = Endpoint {
        reader: Over::new(&socket),
        writer: Over::new(&socket),
        stream: Stream::new(rt.alloc()),
    };
    let mut till = Till::with_defaults(rt.alloc());
    till.connected();
    print_order(rt, &mut line, &mut till, Order::Register)?;
    print_payment(rt, &mut line, &mut till)
}

/// Pays 12.34, and prints the outcome and the book.
fn print_payment<R: Source, W: Sink>(
    rt: &HostRuntime,
    line: &mut Endpoint<R, W>,
    till: &mut Till,
) -> io::Result<()> {
    let Some(amount) = Amount::new(1234) else {
        return Ok(());
    };
    print_order(rt, line, till, Order::Pay(amount))?;
    println!(rt;
        "pay: {} in the book, {} unclear",
        till.book().len(),
        till.unclear().len()
    )
}

/// Gives the till this order, and prints its outcome. Whatever comes of a payment, the till's book has it.
fn print_order<R: Source, W: Sink>(
    rt: &HostRuntime,
    line: &mut Endpoint<R, W>,
    till: &mut Till,
    order: Order,
) -> io::Result<()> {
    match run_order(
        rt.alloc(),
        &mut line.reader,
        &mut line.writer,
        &mut line.stream,
        till,
        order,
        TURNS,
    ) {
        Ok(Outcome::Registered) => println!(rt; "pay: registered"),
        Ok(Outcome::Paid { .. }) => println!(rt; "pay: paid"),
        Ok(_) => println!(rt; "pay: the terminal did not do it"),
        Err(RunFault::Order(_)) => println!(rt; "pay: the till refused the order"),
        Err(RunFault::Line(_)) => println!(rt; "pay: the line broke"),
        Err(RunFault::Book(_)) => println!(rt; "pay: the book could not be kept"),
    }
}
