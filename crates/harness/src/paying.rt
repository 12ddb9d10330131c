//! Whole dialogues, over the events of a till's line and over both ends.
ghost use Rattle.std.specs.Prelude.{◌≤◌};

use std::alloc::{AllocError, Global};
use zvt_bcd::Amount;
use zvt_term::{Move, Verdict, World, run_world};
use zvt_till::{Event, Order, Run, Till, replay};

/// What the terminal says to a registration: that it is taken up, and completed.
pub const REGISTERED: [u8; 6] = [0x80, 0x00, 0x00, 0x06, 0x0F, 0x00];

/// What it says to a payment of 1234: that it is taken up, an approval under the trace number 17, and the completion.
pub const APPROVED: [u8; 25] = [
    0x80, 0x00, 0x00, 0x04, 0x0F, 0x10, 0x27, 0x00, 0x04, 0x00, 0x00, 0x00, 0x00, 0x12, 0x34, 0x0B,
    0x00, 0x00, 0x17, 0x87, 0x00, 0x05, 0x06, 0x0F, 0x00,
];

/// That many cents.
pub fn price(cents: u64) -> Amount
    requires some { 1 ≤ cents }
    requires few { cents ≤ 10000 }
{
    let Some(price) = Amount::new(cents) else {
        unreachable!()
    };
    price
}

/// Whether just this payment is in the book, and none is unclear.
pub fn has_booked(till: &Till, cents: u64, number: u32) -> bool {
    match till.book() {
        [entry] => {
            entry.amount.get() == cents
                && entry.trace.get() == number
                && !entry.reversed
                && till.unclear().is_empty()
        }
        _ => false,
    }
}

/// A till registers and is paid, from a list of events; the approval and the completion come twice.
pub fn replays(alloc: Global) -> Result<bool, AllocError> {
    let mut events = Vec::new(alloc);
    events.push(Event::Connected)?;
    events.push(Event::Order(Order::Register))?;
    comes(alloc, &mut events, &REGISTERED)?;
    events.push(Event::Order(Order::Pay(price(1234))))?;
    comes(alloc, &mut events, &APPROVED[..22])?;
    comes(alloc, &mut events, &APPROVED[3..])?;
    comes(alloc, &mut events, &APPROVED[22..])?;
    match replay(alloc, &events) {
        Ok(run) => Ok(has_run(&run)),
        Err(AllocError) => match replay(alloc, &events) {
            Ok(run) => Ok(has_run(&run)),
            Err(AllocError) => Ok(false),
        },
    }
}

/// The bytes come on the line, in pieces of at most seven.
fn comes(alloc: Global, events: &mut Vec<Event>, bytes: &[u8]) -> Result<(), AllocError> {
    for piece in bytes.chunks(7) {
        events.push(Event::Piece(piece.to_vec(alloc)?))?;
    }
    Ok(())
}

/// Whether the till has the payment, and has said what it had to.
fn has_run(run: &Run) -> bool {
    has_booked(&run.till, 1234, 17) && run.till.total() == 1234 && run.sent.len() == 37
}

/// Both ends register, and a payment of 1000 is approved and booked.
pub fn worlds(alloc: Global) -> bool {
    let moves = [
        Move::Connect,
        Move::Order(Order::Register),
        Move::ToTerminal(0, Verdict::Approve),
        Move::ToTill(0),
        Move::ToTill(1),
        Move::ToTerminal(1, Verdict::Approve),
        Move::Order(Order::Pay(price(1000))),
        Move::ToTerminal(2, Verdict::Approve),
        Move::ToTill(2),
        Move::ToTill(3),
        Move::ToTill(3),
        Move::ToTerminal(3, Verdict::Approve),
        Move::ToTerminal(4, Verdict::Approve),
        Move::ToTill(5),
    ];
    match run_world(alloc, &moves) {
        Ok(world) => is_paid(&world),
        Err(AllocError) => match run_world(alloc, &moves) {
            Ok(world) => is_paid(&world),
            Err(AllocError) => false,
        },
    }
}

/// Whether both ends have the payment, and the till has sent six messages.
fn is_paid(world: &World) -> bool {
    has_booked(&world.till, 1000, 1)
        && world.terminal.ledger().len() == 1
        && world.from_till.len() == 6
}
