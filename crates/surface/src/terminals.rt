//! The simulated terminal, and both ends of a line (`zvt_term`).
use std::alloc::{AllocError, Global};
use zvt_apdu::{Apdu, scan};
use zvt_bcd::Amount;
use zvt_grammar::Scan;
use zvt_stream::{Answers, Machine, Stream};
use zvt_term::extras::extra_of;
use zvt_term::{
    Card, Extended, Extra, Extras, Input, Move, Receipts, Row, Served, Terminal, Verdict, World,
    run_world,
};
use zvt_till::Order;

const REGISTRATION: [u8; 9] = [0x06, 0x00, 0x06, 0x00, 0x00, 0x00, 0xBE, 0x09, 0x78];

/// A refund of 10.00.
const REFUND: [u8; 13] = [
    0x06, 0x31, 0x0A, 0x00, 0x00, 0x00, 0x04, 0x00, 0x00, 0x00, 0x00, 0x10, 0x00,
];

pub fn all(alloc: Global) -> bool {
    stepped(alloc) && served(alloc) && extended(alloc) && matches!(matched(alloc), Ok(true))
}

fn stepped(alloc: Global) -> bool {
    let mut terminal = Terminal::new(alloc, 12_345_678);
    let mut stream = Stream::new(alloc);
    if stream.feed_view(&REGISTRATION).is_err() {
        return false;
    }
    let Some(apdu) = stream.lent() else {
        return false;
    };
    let answers: Result<Answers, AllocError> = terminal.step(Input::View(&apdu), Verdict::Approve);
    answers.is_ok() && breaks(&mut terminal) && ledger(&terminal).is_empty()
}

fn breaks(terminal: &mut Terminal) -> bool {
    terminal.step(Input::Malformed, Verdict::Approve).is_ok()
        && terminal.step(Input::Lost, Verdict::Decline(0x6C)).is_ok()
}

fn ledger(terminal: &Terminal) -> &[Row] {
    terminal.ledger()
}

fn served(alloc: Global) -> bool {
    let mut served = Served {
        terminal: Terminal::new(alloc, 1),
        verdict: Verdict::Approve,
    };
    served.decide(Verdict::Decline(0x6C));
    let heard = match scan(alloc, &REGISTRATION) {
        Ok(Scan::Whole((apdu, _))) => hears(&mut served.terminal, &apdu),
        _ => false,
    };
    heard && !served.resting()
}

/// A refund, before any registration.
fn extended(alloc: Global) -> bool {
    let mut stream = Stream::new(alloc);
    if stream.feed_view(&REFUND).is_err() {
        return false;
    }
    let Some(apdu) = stream.lent() else {
        return false;
    };
    let extras = Extras {
        extended: true,
        card: Some(Card::Girocard),
        receipts: Receipts::Blocks,
        intermediate: true,
        delay: 100,
    };
    let mut terminal = Extended::new(alloc, 1, Verdict::Approve, extras);
    let refused = terminal.hear(alloc, &apdu).is_ok() && terminal.refund.is_none();
    let idle = terminal.elapse().is_ok() && terminal.held.is_none();
    let plain = Extended::new(alloc, 1, Verdict::Approve, Extras::none());
    refused && idle && !plain.resting() && matches!(extra_of(&apdu), Some(Extra::Refund(Some(_))))
}

fn hears(terminal: &mut Terminal, apdu: &Apdu) -> bool {
    terminal
        .step(Input::Message(apdu), Verdict::Approve)
        .is_ok()
}

/// A registration and a payment, both delivered.
fn matched(alloc: Global) -> Result<bool, AllocError> {
    let Some(amount) = Amount::new(1000) else {
        return Ok(false);
    };
    let moves = [
        Move::Connect,
        Move::Order(Order::Register),
        Move::ToTerminal(0, Verdict::Approve),
        Move::ToTill(0),
        Move::ToTill(1),
        Move::ToTerminal(1, Verdict::Approve),
        Move::Order(Order::Pay(amount)),
        Move::ToTerminal(2, Verdict::Approve),
        Move::TillLost,
        Move::TerminalLost,
    ];
    let both: World = run_world(alloc, &moves)?;
    let messages = (both.from_till.len(), both.from_terminal.len());
    Ok(both.till.unclear().len() == 1 && messages == (3, 4) && both.terminal.ledger().len() == 1)
}
