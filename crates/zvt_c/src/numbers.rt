//! Orders, outcomes and entries of the book, as numbers.
ghost use Rattle.std.specs.Prelude.{◌≡◌, None};
ghost use Rattle.zvt_c.specs.Numbers.{coded, doubt_of, ended, kind_of_running, nothing, outcome_of, paid, receipt_of};
ghost use Rattle.zvt_c.specs.Numbers.{row_of, running_of, trace_of, unclear_row_of};
ghost use Rattle.zvt_c.specs.Ordering.{order_named, payment_of, status_of};

use crate::statuses;
use zvt_bcd::{Amount, Trace};
use zvt_till::snapshot::cause_code;
use zvt_till::{Cause, Doubt, Entry, Numbers, Order, OrderRefusal, Outcome};

/// How an order ended. Members that do not apply to the kind are 0.
#[repr(C)]
#[derive(Clone, Copy, Drop)]
pub struct ZvtOutcome {
    /// 0 none, 1 registered, 2 paid, 3 declined, 4 refused, 5 aborted, 6 unclear, 7 reversed, 8 day closed.
    pub kind: u32,
    /// If the order was declined, refused or aborted, the terminal's code; if it is unclear, the cause.
    pub code: u32,
    /// The trace number of a payment.
    pub trace: u32,
    /// If `has_receipt` is 1, the receipt number: its two bytes as read.
    pub receipt: u32,
    pub has_receipt: u32,
}

/// Result of a call on a till.
#[repr(C)]
#[derive(Clone, Copy, Drop)]
pub struct ZvtStep {
    /// The number of bytes taken from the input.
    pub taken: u64,
    /// The number of bytes to send, which are at the start of `out`.
    pub send: u64,
    /// If the bytes are refused, the index of the first byte after which no message can follow.
    pub place: u64,
    /// The size of the first line to print. The line is at the start of `line` if it fits.
    pub line: u64,
    /// If the bytes are refused, the reason: 1 to 8.
    pub reason: u32,
    /// 1 if the consumed bytes end a message.
    pub message: u32,
    /// 1 if the last message has lines to print: it is a print line, or a text block with a line.
    pub printed: u32,
    /// How the running order ended, if it did.
    pub outcome: ZvtOutcome,
}

/// The state of a till.
#[repr(C)]
#[derive(Clone, Copy, Drop)]
pub struct ZvtState {
    /// The sum of the payments that were not reversed, in the currency's smallest unit.
    pub total: u64,
    pub booked: u64,
    pub unclear: u64,
    /// The number of entries of the book whose last reversal is unclear.
    pub unclear_reversals: u64,
    /// The number of settlements.
    pub settled: u64,
    /// The number of bytes held of an incomplete message.
    pub held: u64,
    pub registered: u32,
    /// What is running: 0 nothing, 1 register, 2 pay, 3 reverse, 4 close the day, 6 an ask.
    pub running: u32,
    /// How the last order ended.
    pub last: ZvtOutcome,
}

/// An entry of the book, or an unclear payment.
#[repr(C)]
#[derive(Clone, Copy, Drop)]
pub struct ZvtEntry {
    pub amount: u64,
    pub trace: u32,
    pub receipt: u32,
    pub has_receipt: u32,
    /// 1 if a completed reversal took the payment back.
    pub reversed: u32,
    /// The cause of an unclear payment or of an unclear reversal, or 0.
    pub cause: u32,
    /// Doubt about its reversal: 0 none, 1 the last reversal is unclear, 2 the terminal answered B4, because it had
    /// reversed the payment before. Always 0 for an unclear payment.
    pub doubt: u32,
}

/// Returns no outcome.
pub fn no_outcome() -> ZvtOutcome
    ensures { result ≡ outcome_of None }
{
    ZvtOutcome {
        kind: 0,
        code: 0,
        trace: 0,
        receipt: 0,
        has_receipt: 0,
    }
}

/// Returns a step that took, sent and ended nothing.
pub fn no_step() -> ZvtStep
    ensures { result ≡ nothing }
{
    ZvtStep {
        taken: 0,
        send: 0,
        place: 0,
        line: 0,
        reason: 0,
        message: 0,
        printed: 0,
        outcome: no_outcome(),
    }
}

/// Returns an outcome of this kind with a code.
fn coded(kind: u32, code: u32) -> ZvtOutcome
    ensures { result ≡ coded kind code }
{
    ZvtOutcome {
        kind,
        code,
        trace: 0,
        receipt: 0,
        has_receipt: 0,
    }
}

/// Returns the status of a refused order.
pub fn refusal_status(why: OrderRefusal) -> u32
    ensures { result ≡ status_of why }
{
    match why {
        OrderRefusal::Offline => statuses::OFFLINE,
        OrderRefusal::NotRegistered => statuses::NOT_REGISTERED,
        OrderRefusal::Busy => statuses::BUSY,
        OrderRefusal::NothingToCancel => statuses::NOTHING_TO_CANCEL,
        OrderRefusal::BookFull => statuses::BOOK_FULL,
        OrderRefusal::UnknownEntry => statuses::UNKNOWN_ENTRY,
        OrderRefusal::AlreadyReversed => statuses::ALREADY_REVERSED,
        OrderRefusal::NoReceipt => statuses::NO_RECEIPT,
        OrderRefusal::Memory => statuses::NO_MEMORY,
    }
}

/// Returns a receipt number, and 1 if there is one.
pub fn receipt_numbers(receipt: Option<[u8; 2]>) -> (u32, u32)
    ensures { result ≡ receipt_of receipt }
{
    match receipt {
        None => (0, 0),
        Some(bytes) => (u32::from(bytes[0]) * 256 + u32::from(bytes[1]), 1),
    }
}

/// Returns the outcome of a booked payment.
fn paid_numbers(trace: Trace, receipt: Option<[u8; 2]>) -> ZvtOutcome
    ensures { result ≡ paid trace receipt }
{
    let (receipt, has_receipt) = receipt_numbers(receipt);
    ZvtOutcome {
        kind: 2,
        code: 0,
        trace: trace.get(),
        receipt,
        has_receipt,
    }
}

/// Returns the outcome of an order that ended.
fn ended_numbers(outcome: &Outcome) -> ZvtOutcome
    ensures { result ≡ ended outcome.now }
{
    match outcome {
        Outcome::Registered => coded(1, 0),
        Outcome::Paid { trace, receipt } => paid_numbers(*trace, *receipt),
        Outcome::Declined(code) => coded(3, u32::from(*code)),
        Outcome::Refused(code) => coded(4, u32::from(*code)),
        Outcome::Aborted(code) => coded(5, u32::from(*code)),
        Outcome::Unclear(cause) => coded(6, u32::from(cause_code(*cause))),
        Outcome::Reversed => coded(7, 0),
        Outcome::DayClosed => coded(8, 0),
    }
}

/// Returns the outcome of an order, or no outcome.
pub fn outcome_numbers(outcome: Option<Outcome>) -> ZvtOutcome
    ensures { result ≡ outcome_of outcome }
{
    match outcome {
        None => no_outcome(),
        Some(outcome) => ended_numbers(&outcome),
    }
}

/// Returns the doubt about the reversals of a payment, and the cause if the last is unclear.
fn doubt_numbers(doubt: Doubt) -> (u32, u32)
    ensures { result ≡ doubt_of doubt }
{
    match doubt {
        Doubt::No => (0, 0),
        Doubt::Unclear(cause) => (1, u32::from(cause_code(cause))),
        Doubt::TakenBack => (2, 0),
    }
}

/// Returns an entry of the book as numbers.
pub fn entry_numbers(entry: &Entry) -> ZvtEntry
    ensures { result ≡ row_of entry.now }
{
    let (receipt, has_receipt) = receipt_numbers(entry.receipt);
    let (doubt, cause) = doubt_numbers(entry.doubt);
    ZvtEntry {
        amount: entry.amount.get(),
        trace: entry.trace.get(),
        receipt,
        has_receipt,
        reversed: u32::from(entry.reversed),
        cause,
        doubt,
    }
}

/// Returns a trace number that the terminal named, or 0.
fn trace_number(trace: Option<Trace>) -> u32
    ensures { result ≡ trace_of trace }
{
    match trace {
        None => 0,
        Some(trace) => trace.get(),
    }
}

/// Returns an unclear payment as numbers, with the numbers that the terminal named for it.
pub fn unclear_numbers(row: &(Amount, Cause), heard: Numbers) -> ZvtEntry
    ensures { result ≡ unclear_row_of row.now heard }
{
    let (amount, cause) = row;
    let (receipt, has_receipt) = receipt_numbers(heard.receipt);
    ZvtEntry {
        amount: amount.get(),
        trace: trace_number(heard.trace),
        receipt,
        has_receipt,
        reversed: 0,
        cause: u32::from(cause_code(*cause)),
        doubt: 0,
    }
}

/// Returns the order of this kind: 1 register, 2 pay this amount, 3 reverse the payment at this index of the book,
/// from 0, 4 close the day, 5 cancel. Returns `None` for other kinds, and for an amount that does not fit into a
/// message.
pub fn order_of(kind: u32, number: u64) -> Option<Order>
    ensures { result ≡ order_named kind number }
{
    match kind {
        1 => Some(Order::Register),
        2 => pay(number),
        3 => Some(Order::Reverse(number as usize)),
        4 => Some(Order::CloseDay),
        5 => Some(Order::Cancel),
        _ => None,
    }
}

/// Returns a payment of this amount, if a message can hold it.
fn pay(number: u64) -> Option<Order>
    ensures { result ≡ payment_of number }
{
    match Amount::new(number) {
        Some(amount) => Some(Order::Pay(amount)),
        None => None,
    }
}

/// Returns the number of what is running: an order, an ask, or nothing.
pub fn running_number(asking: bool, running: Option<Order>) -> u32
    ensures { result ≡ running_of asking running }
{
    if asking { 6 } else { order_number(running) }
}

/// Returns the kind of the running order, or 0 if there is none.
fn order_number(running: Option<Order>) -> u32
    ensures { result ≡ kind_of_running running }
{
    match running {
        None => 0,
        Some(Order::Register) => 1,
        Some(Order::Pay(_)) => 2,
        Some(Order::Reverse(_)) => 3,
        Some(Order::CloseDay) => 4,
        Some(Order::Cancel) => 5,
    }
}
