//! The till and its book (`zvt_till`).
use std::alloc::{AllocError, Global};
use zvt_apdu::{Apdu, scan};
use zvt_bcd::{Amount, Currency, Trace};
use zvt_grammar::Scan;
use zvt_io::Over;
use zvt_stream::Stream;
use zvt_till::{
    Booked, Books, Cause, CurrencyFact, Entry, Event, Happening, Heard, Order, OrderRefusal,
    Original, Outcome, Outgoing, Reply, Run, RunFault, Sent, StatusFacts, Till, books, heard,
    heard_view, replay, run_order,
};

/// A positive answer and a completion.
const COMPLETED: [u8; 6] = [0x80, 0x00, 0x00, 0x06, 0x0F, 0x00];

pub fn all(alloc: Global) -> bool {
    matches!(ordered(alloc), Ok(true))
        && run(alloc)
        && matches!(replayed(alloc), Ok(true))
        && matches!(booked(alloc), Ok(true))
        && listened(alloc)
        && reserved(alloc)
        && named()
}

fn new_till(alloc: Global) -> Option<Till> {
    let euro = Currency::new(978)?;
    Some(Till::new(alloc, [0; 3], 0xBE, euro))
}

/// A registration is ordered, heard and ended.
fn ordered(alloc: Global) -> Result<bool, AllocError> {
    let Some(mut till) = new_till(alloc) else {
        return Ok(false);
    };
    let offline: Result<Outgoing, OrderRefusal> = till.order(Order::Register);
    till.connected();
    let Ok(outgoing) = till.order(Order::Register) else {
        return Ok(false);
    };
    let message: Apdu = outgoing.message(alloc)?;
    let mut buffer = [0; 32];
    let sizes = (outgoing.put(&mut buffer), zvt_apdu::size(&message));
    Ok(sizes == (9, 9) && offline == Err(OrderRefusal::Offline) && ends(&mut till))
}

fn ends(till: &mut Till) -> bool {
    let reply: Reply = till.hear(Heard::Positive);
    if reply.send.is_some() || till.running() != Some(Order::Register) {
        return false;
    }
    let outcome: Option<Outcome> = till.hear(Heard::Completion).outcome;
    let registered = till.registered();
    outcome == Some(Outcome::Registered) && registered && gives_up(till)
}

fn gives_up(till: &mut Till) -> bool {
    let lost = till.lost();
    let malformed = till.malformed();
    lost.is_none() && malformed.is_none() && till.last_outcome().is_some() && is_empty(till)
}

fn is_empty(till: &Till) -> bool {
    let entries: &[Entry] = till.book();
    entries.is_empty() && till.unclear().is_empty() && till.total() == 0
}

fn run(alloc: Global) -> bool {
    let Some(mut till) = new_till(alloc) else {
        return false;
    };
    till.connected();
    let ended: Result<Outcome, RunFault> = run_order(
        alloc,
        &mut Over::new(COMPLETED.as_slice()),
        &mut Over::new(Vec::new(alloc)),
        &mut Stream::new(alloc),
        &mut till,
        Order::Register,
        10,
    );
    ended == Ok(Outcome::Registered)
}

fn replayed(alloc: Global) -> Result<bool, AllocError> {
    let mut events = Vec::new(alloc);
    events.push(Event::Connected)?;
    events.push(Event::Order(Order::Register))?;
    events.push(Event::Piece(COMPLETED.to_vec(alloc)?))?;
    let run: Run = replay(alloc, &events)?;
    Ok(run.log.len() == 4 && run.sent.len() == 12 && run.till.registered())
}

/// An approval, of this amount and trace number.
fn approval(amount: Amount, trace: Trace) -> StatusFacts {
    StatusFacts {
        result: Some(0),
        has_result: true,
        amount: Some(amount),
        trace: Some(trace),
        receipt: Some([0, 5]),
        original: Original::Absent,
        currency: CurrencyFact::Absent,
    }
}

fn booked(alloc: Global) -> Result<bool, AllocError> {
    let (Some(amount), Some(trace)) = (Amount::new(1234), Trace::new(17)) else {
        return Ok(false);
    };
    let log = [
        Happening::Connected,
        Happening::Sent(Sent::Pay(amount)),
        Happening::Heard(Heard::Positive),
        Happening::Heard(Heard::Status(approval(amount, trace))),
        Happening::Heard(Heard::Completion),
        Happening::Lost,
    ];
    let books: Books = books(alloc, &log)?;
    let first: Option<&Booked> = books.booked.first();
    Ok(first.is_some() && books.unclear.is_empty())
}

/// What a completion is to a till, and its view.
fn listened(alloc: Global) -> bool {
    let mut stream = Stream::new(alloc);
    let shown = match stream.feed_view(&COMPLETED[3..]) {
        Ok(_) => stream
            .lent()
            .is_some_and(|apdu| heard_view(&apdu) == Heard::Completion),
        Err(_) => false,
    };
    match scan(alloc, &COMPLETED[3..]) {
        Ok(Scan::Whole((apdu, _))) => shown && heard(&apdu) == Heard::Completion,
        _ => false,
    }
}

fn reserved(alloc: Global) -> bool {
    match new_till(alloc) {
        Some(mut till) => till.reserve(2).is_ok() && till.spare() >= 2,
        None => false,
    }
}

fn named() -> bool {
    Cause::WrongCurrency.name() == "WrongCurrency" && OrderRefusal::Busy.name() == "Busy"
}
