//! A till and a terminal, call by call, and a till's orders over memory.

use crate::paying::{APPROVED, has_booked, price};
use crate::{RIGHT, WRONG};
use std::alloc::{AllocError, Global};
use zvt_apdu::scan;
use zvt_bcd::{Amount, Trace};
use zvt_grammar::Scan;
use zvt_io::{Over, Sink, Source};
use zvt_stream::{Endpoint, LineFault, Stream};
use zvt_term::{Input, Terminal, Verdict};
use zvt_till::{
    Cause, CurrencyFact, Heard, Keeper, Order, OrderRefusal, Original, Outcome, RunFault,
    StatusFacts, Till, run_order,
};

const REGISTRATION: [u8; 9] = [0x06, 0x00, 0x06, 0x00, 0x00, 0x00, 0xBE, 0x09, 0x78];

const AUTHORISATION: [u8; 10] = [0x06, 0x01, 0x07, 0x04, 0x00, 0x00, 0x00, 0x00, 0x10, 0x00];

const ACKNOWLEDGEMENT: [u8; 3] = [0x80, 0x00, 0x00];

/// The till and the terminal take their calls.
pub fn calls(alloc: Global) -> Result<bool, AllocError> {
    Ok(till_calls(alloc) && reserving_calls(alloc) && terminal_calls(alloc)?)
}

/// A till is paid without a line's bytes.
fn till_calls(alloc: Global) -> bool {
    let mut till = registered_till(alloc);
    if let Err(why) = till.order(Order::Pay(price(1234))) {
        let is_unchanged = till.running().is_none() && till.spare() == 0 && till.registered();
        if why != OrderRefusal::Memory || !is_unchanged {
            return false;
        }
        if till.order(Order::Pay(price(1234))).is_err() {
            return false;
        }
    }
    is_paid(&mut till) && has_booked(&till, 1234, 17)
}

/// A new till that has registered.
fn registered_till(alloc: Global) -> Till {
    let mut till = Till::with_defaults(alloc);
    register(&mut till);
    till
}

/// It registers on a new line; this wants no memory.
fn register(till: &mut Till) {
    till.connected();
    let _ = till.order(Order::Register);
    till.hear(Heard::Positive);
    till.hear(Heard::Completion);
}

/// Whether the order that runs is paid under the trace number 17.
fn is_paid(till: &mut Till) -> bool {
    till.hear(Heard::Positive);
    till.hear(Heard::Status(StatusFacts {
        result: Some(0),
        has_result: true,
        amount: Some(price(1234)),
        trace: Trace::new(17),
        receipt: Some([0, 5]),
        currency: CurrencyFact::Absent,
        original: Original::Absent,
    }));
    till.hear(Heard::Completion);
    till.running().is_none() && matches!(till.last_outcome(), Some(Outcome::Paid { .. }))
}

/// A till that has room for two payments wants no memory for them, whether they are booked or unclear.
fn reserving_calls(alloc: Global) -> bool {
    let mut till = Till::with_defaults(alloc);
    if till.reserve(2).is_err() && (till.spare() >= 2 || till.reserve(2).is_err()) {
        return false;
    }
    if till.spare() < 2 {
        return false;
    }
    for left in [1, 0] {
        register(&mut till);
        if till.order(Order::Pay(price(1234))).is_err() {
            return false;
        }
        till.lost();
        if till.spare() < left {
            return false;
        }
    }
    till.unclear().len() == 2
}

/// A terminal registers a till and approves its payment.
fn terminal_calls(alloc: Global) -> Result<bool, AllocError> {
    let mut terminal = Terminal::new(alloc, 12_345_678);
    let messages: [&[u8]; 5] = [
        &REGISTRATION,
        &ACKNOWLEDGEMENT,
        &AUTHORISATION,
        &ACKNOWLEDGEMENT,
        &ACKNOWLEDGEMENT,
    ];
    for bytes in messages {
        if !takes_step(alloc, &mut terminal, bytes)? {
            return Ok(false);
        }
    }
    Ok(terminal.ledger().len() == 1)
}

/// Whether the terminal hears the message, again where memory is wanted and its ledger had not changed.
fn takes_step(alloc: Global, terminal: &mut Terminal, bytes: &[u8]) -> Result<bool, AllocError> {
    let Scan::Whole((apdu, _)) = scan(alloc, bytes)? else {
        return Ok(false);
    };
    let rows = terminal.ledger().len();
    let first = terminal.step(Input::Message(&apdu), Verdict::Approve);
    if first.is_ok() {
        return Ok(true);
    }
    if terminal.ledger().len() != rows {
        return Ok(false);
    }
    Ok(
        terminal
            .step(Input::Message(&apdu), Verdict::Approve)
            .is_ok(),
    )
}

/// What is said of a payment whose line was given up since its stream could not grow.
pub const UNCLEAR: &str = "unclear for want of memory, as expected";

/// A payment that is an order over memory: what is to be said of it.
pub fn orders(alloc: Global) -> &'static str {
    let mut till = registered_till(alloc);
    let mut made = pays(alloc, &mut till, price(1234));
    if made == Err(RunFault::Order(OrderRefusal::Memory)) {
        if till.running().is_some() || !till.unclear().is_empty() {
            return WRONG;
        }
        made = pays(alloc, &mut till, price(1234));
    }
    match made {
        Ok(_) if has_booked(&till, 1234, 17) => RIGHT,
        Err(RunFault::Line(LineFault::Memory)) if is_unclear(alloc, &mut till, price(1234)) => {
            UNCLEAR
        }
        _ => WRONG,
    }
}

/// What comes of a payment on a new stream, where the terminal approves.
fn pays(alloc: Global, till: &mut Till, price: Amount) -> Result<Outcome, RunFault> {
    let mut written = [0; 64];
    let mut end = Endpoint {
        reader: Over::new(APPROVED.as_slice()),
        writer: Over::new(written.as_mut_slice()),
        stream: Stream::new(alloc),
    };
    order_at(alloc, &mut end, till, Order::Pay(price), 10)
}

/// Gives the till an order at this end of a line, and hears it out.
pub(crate) fn order_at<R: Source, W: Sink, K: Keeper>(
    alloc: Global,
    end: &mut Endpoint<R, W>,
    till: &mut K,
    order: Order,
    turns: u64,
) -> Result<Outcome, RunFault> {
    run_order(
        alloc,
        &mut end.reader,
        &mut end.writer,
        &mut end.stream,
        till,
        order,
        turns,
    )
}

/// Whether the payment is unclear for the loss of its line, and the next is refused.
fn is_unclear(alloc: Global, till: &mut Till, price: Amount) -> bool {
    let unclear = Outcome::Unclear(Cause::Line);
    till.unclear() == [(price, Cause::Line)].as_slice()
        && till.book().is_empty()
        && till.last_outcome() == Some(unclear)
        && pays(alloc, till, price) == Err(RunFault::Order(OrderRefusal::Offline))
}
