//! Asks the terminal to repeat its last receipt (PA00P015, Repeat Receipt), and reports what the answers settled.
ghost use Rattle.std.specs.Prelude.{◌≡◌, length, MatchBool, MatchOption, nat_lt, slice_get};
ghost use Rattle.zvt_settle.specs.Inside.{settling_of};
ghost use Rattle.zvt_c.specs.Asking.{AsksEnd, AsksHandle, pending_of, settlement_of, unnumbered, waiting, what_of};
ghost use Rattle.zvt_c.specs.Numbers.{nothing};
ghost use Rattle.zvt_c.specs.Statuses as statuses;

use crate::handle::ZvtTill;
use crate::numbers::{ZvtStep, no_step, receipt_numbers, refusal_status};
use crate::records::put;
use crate::session::Session;
use crate::statuses;
use crate::till::lacks_capacity;
use std::alloc::Global;
use zvt_bcd::Trace;
use zvt_settle::{Pending, Settlement, SettlingTill, What};

/// What became of an unclear order.
#[repr(C)]
#[derive(Clone, Copy, Drop)]
pub struct ZvtSettlement {
    /// The index of the unclear payment, or for kinds 3 and 4 of the entry of the book, counted from 0.
    pub place: u64,
    /// 1 the payment happened, 2 it did not, 3 the reversal happened, 4 it did not.
    pub kind: u32,
    /// For kind 1 the trace number that the terminal named, or else 0.
    pub trace: u32,
    /// If `has_receipt` is 1, the receipt number: its two bytes as read.
    pub receipt: u32,
    pub has_receipt: u32,
}

/// The unclear order that waits for an answer.
#[repr(C)]
#[derive(Clone, Copy, Drop)]
pub struct ZvtPending {
    /// The index of the unclear payment, or for kind 2 of the entry of the book, counted from 0.
    pub place: u64,
    /// 0 none, 1 a payment, 2 a reversal.
    pub kind: u32,
    /// 1 if the status of the terminal's last transaction is known. Only then can an answer settle an order that
    /// becomes unclear.
    pub last_known: u32,
}

/// Lets the till ask its terminal to repeat the last receipt. Writes the bytes to send to `out`, which needs room for
/// 32. The ask is refused as an order is, for the reasons 10 to 12.
#[unsafe(no_mangle)]
pub extern "C" fn zvt_till_ask(
    alloc: Global,
    till: &mut ZvtTill,
    out: &mut [u8],
    answer: &mut ZvtStep,
) -> u32
    ensures { MatchBool (nat_lt (length out.old) 32) ((till.new.raw_handle.held ≡ till.old.raw_handle.held)
        × (out.new ≡ out.old) × (answer.new ≡ nothing) × (result ≡ statuses.too_small))
        (AsksHandle till.old.raw_handle.held till.new.raw_handle.held out.old out.new answer.new result) }
{
    if lacks_capacity(out, answer) {
        return statuses::TOO_SMALL;
    }
    let Some(mut end) = till.take(alloc) else {
        return statuses::CLOSED;
    };
    let status = ask(&mut end, out, answer);
    *till = ZvtTill::of(end);
    status
}

/// Lets the till of a session ask.
fn ask(end: &mut Session, out: &mut [u8], answer: &mut ZvtStep) -> u32
    ensures { AsksEnd end.old end.new out.old out.new answer.new result }
{
    match end.till.ask() {
        Ok(bytes) => {
            *answer = ZvtStep {
                send: put(&bytes, out) as u64,
                ..no_step()
            };
            statuses::OK
        }
        Err(why) => {
            *answer = no_step();
            refusal_status(why)
        }
    }
}

/// Returns a settlement of this kind without numbers of the terminal.
fn unnumbered(kind: u32, place: usize) -> ZvtSettlement
    ensures { result ≡ unnumbered kind place }
{
    ZvtSettlement {
        place: place as u64,
        kind,
        trace: 0,
        receipt: 0,
        has_receipt: 0,
    }
}

/// Returns a settlement as numbers.
fn settlement_numbers(settlement: &Settlement) -> ZvtSettlement
    ensures { result ≡ settlement_of settlement.now }
{
    match settlement {
        Settlement::Paid(row, trace, receipt) => paid_numbers(*row, *trace, *receipt),
        Settlement::NotPaid(row) => unnumbered(2, *row),
        Settlement::Reversed(entry) => unnumbered(3, *entry),
        Settlement::NotReversed(entry) => unnumbered(4, *entry),
    }
}

/// Returns the settlement of a payment that happened.
fn paid_numbers(row: usize, trace: Trace, receipt: Option<[u8; 2]>) -> ZvtSettlement
    ensures { result ≡ settlement_of (Settlement.Paid row trace receipt) }
{
    let (receipt, has_receipt) = receipt_numbers(receipt);
    ZvtSettlement {
        place: row as u64,
        kind: 1,
        trace: trace.get(),
        receipt,
        has_receipt,
    }
}

/// Reports the settlement at this index, counted from 0, in the order of the answers.
#[unsafe(no_mangle)]
pub extern "C" fn zvt_till_settled(
    alloc: Global,
    till: &mut ZvtTill,
    place: usize,
    settlement: &mut ZvtSettlement,
) -> u32
    ensures same { till.new.raw_handle.held ≡ till.old.raw_handle.held }
    ensures row { MatchOption till.old.raw_handle.held
        ((result ≡ statuses.closed) × (settlement.new ≡ settlement.old))
        (λ end. MatchOption (slice_get (settling_of end.till).settled place)
        ((result ≡ statuses.argument) × (settlement.new ≡ settlement.old))
        (λ one. (result ≡ statuses.ok) × (settlement.new ≡ settlement_of one))) }
{
    let Some(end) = till.take(alloc) else {
        return statuses::CLOSED;
    };
    let status = match end.till.settled().get(place) {
        Some(one) => {
            *settlement = settlement_numbers(one);
            statuses::OK
        }
        None => statuses::ARGUMENT,
    };
    *till = ZvtTill::of(end);
    status
}

/// Returns the kind of an unclear order, and its index.
fn what_numbers(what: What) -> (u32, u64)
    ensures { result ≡ what_of what }
{
    match what {
        What::Payment(row, _) => (1, row as u64),
        What::Reversal(entry) => (2, entry as u64),
    }
}

/// Returns the kind of the unclear order that waits for an answer, and its index.
fn waiting(pending: Option<Pending>) -> (u32, u64)
    ensures { result ≡ waiting pending }
{
    match pending {
        None => (0, 0),
        Some(pending) => what_numbers(pending.what),
    }
}

/// Returns what is pending as numbers.
fn pending_numbers(till: &SettlingTill) -> ZvtPending
    ensures { result ≡ pending_of (settling_of till.now) }
{
    let (kind, place) = waiting(till.pending());
    ZvtPending {
        place,
        kind,
        last_known: u32::from(till.knows_last()),
    }
}

/// Reports which unclear order waits for an answer that settles it, if one does.
#[unsafe(no_mangle)]
pub extern "C" fn zvt_till_pending(
    alloc: Global,
    till: &mut ZvtTill,
    pending: &mut ZvtPending,
) -> u32
    ensures same { till.new.raw_handle.held ≡ till.old.raw_handle.held }
    ensures said { MatchOption till.old.raw_handle.held
        ((result ≡ statuses.closed) × (pending.new ≡ pending.old))
        (λ end. (result ≡ statuses.ok) × (pending.new ≡ pending_of (settling_of end.till))) }
{
    let Some(end) = till.take(alloc) else {
        return statuses::CLOSED;
    };
    *pending = pending_numbers(&end.till);
    *till = ZvtTill::of(end);
    statuses::OK
}
