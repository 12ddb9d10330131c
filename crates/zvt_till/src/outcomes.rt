//! The outcomes of orders.
//!
//! The outcomes of a payment are `#[inline(always)]`, because an audit computes one at the end of each payment.
ghost use Rattle.std.specs.Prelude.{◌≡◌, List};
ghost use Rattle.zvt_till.specs.Outcomes.{payment_outcome, reversal_outcome, closing_outcome, completion_outcome};
ghost use Rattle.zvt_till.specs.Outcomes.{broken_outcome, outcome_by};
ghost use Rattle.zvt_till.specs.UsedTraces.{AreTracesOf};
ghost use Rattle.zvt_till.specs.declared.entries.Entry.{Entry};

use crate::happenings::Happening;
use crate::messages::Heard;
use crate::orders::Order;
use crate::statuses::Statuses;
use crate::used_traces::UsedTraces;
use std::fmt;
use zvt_bcd::Trace;

/// Why the outcome of an order is unknown.
#[derive(Clone, Copy, Debug, PartialEq, Eq)]
pub enum Cause {
    /// The order was completed without a status.
    NoStatus,
    /// A status has no single result code, refers to a different payment, or contradicts the first status.
    Conflict,
    /// A status does not name the amount.
    AmountDiffers,
    /// A status does not name a trace number or, for a reversal, does not name the payment's.
    NoTrace,
    /// The trace number already belongs to an entry of the book.
    TraceUsed,
    /// The order was broken off after a status that was not a decline.
    AbortAfterApproval,
    /// The connection was lost.
    Line,
    /// The bytes on the line were not a message.
    Malformed,
    /// The order has not ended yet. A till never returns this.
    Unfinished,
    /// A status names a currency other than the one in force, or more than one.
    WrongCurrency,
}

impl Cause {
    ghost use Rattle.zvt_till.specs.Names.{cause_name, cause_words};

    /// Returns the name of the cause as every output writes it.
    pub fn name(self) -> &'static str
        ensures { result.now ≡ cause_name self }
    {
        match self {
            Cause::NoStatus => "NoStatus",
            Cause::Conflict => "Conflict",
            Cause::AmountDiffers => "AmountDiffers",
            Cause::NoTrace => "NoTrace",
            Cause::TraceUsed => "TraceUsed",
            Cause::AbortAfterApproval => "AbortAfterApproval",
            Cause::Line => "Line",
            Cause::Malformed => "Malformed",
            Cause::Unfinished => "Unfinished",
            Cause::WrongCurrency => "WrongCurrency",
        }
    }

    /// Returns a sentence that explains why the order is unclear.
    pub fn words(self) -> &'static str
        ensures { result.now ≡ cause_words self }
    {
        match self {
            Cause::NoStatus => "it was completed without status information",
            Cause::Conflict => {
                "its status information names no single result, or contradicts itself"
            }
            Cause::AmountDiffers => "its status information names another amount",
            Cause::NoTrace => "its status information does not name the trace number",
            Cause::TraceUsed => {
                "the book has its trace number already; if the terminal was exchanged or counts from 1 again, begin a \
                    new book"
            }
            Cause::AbortAfterApproval => {
                "it was broken off after the terminal had approved it or contradicted itself"
            }
            Cause::Line => "the connection was lost",
            Cause::Malformed => "the terminal sent bytes that are no message",
            Cause::Unfinished => "it has not ended",
            Cause::WrongCurrency => "its status information names another currency",
        }
    }
}

impl fmt::Display for Cause {
    ghost use Rattle.std.specs.Prelude.{Some};
    ghost use Rattle.zvt_till.specs.Names.{cause_name};

    ghost output = { λ cause. Some (cause_name cause) };

    fn fmt<W: fmt::Write>(&self, f: &mut fmt::Formatter<W>) -> fmt::Result {
        f.write_str(self.name())
    }
}

/// How an order ended.
#[derive(Clone, Copy, Debug, PartialEq, Eq)]
pub enum Outcome {
    Registered,
    /// The payment was booked under this trace number, with the receipt number of the first status.
    Paid {
        trace: Trace,
        receipt: Option<[u8; 2]>,
    },
    /// The terminal completed the order, but every status declined it. Contains the result code of the first one.
    Declined(u8),
    /// The terminal refused the order with this code.
    Refused(u8),
    /// The terminal aborted the order with this code, and every status before that, if any, was a decline.
    Aborted(u8),
    /// It is unknown whether the order took effect. A payment is then in the list of unclear payments.
    Unclear(Cause),
    Reversed,
    DayClosed,
}

/// Returns the outcome of a completed payment, if the entries have these trace numbers.
#[inline(always)]
fn payment_outcome(used: &UsedTraces, so_far: Statuses) -> Outcome
    ensures { (book : List Entry) → AreTracesOf used.now book → result ≡ payment_outcome book so_far }
{
    match so_far {
        Statuses::Nothing => Outcome::Unclear(Cause::NoStatus),
        Statuses::Good(None, _) => Outcome::Unclear(Cause::NoTrace),
        Statuses::Good(Some(trace), receipt) => {
            if used.contains(trace) {
                Outcome::Unclear(Cause::TraceUsed)
            } else {
                Outcome::Paid { trace, receipt }
            }
        }
        Statuses::Declining(code) => Outcome::Declined(code),
        Statuses::Fault(cause) => Outcome::Unclear(cause),
    }
}

/// Returns the outcome of a completed reversal.
fn reversal_outcome(so_far: Statuses) -> Outcome
    ensures { result ≡ reversal_outcome so_far }
{
    match so_far {
        Statuses::Nothing => Outcome::Unclear(Cause::NoStatus),
        Statuses::Good(_, _) => Outcome::Reversed,
        Statuses::Declining(code) => Outcome::Declined(code),
        Statuses::Fault(cause) => Outcome::Unclear(cause),
    }
}

/// Returns the outcome of a completed end of day.
fn closing_outcome(so_far: Statuses) -> Outcome
    ensures { result ≡ closing_outcome so_far }
{
    match so_far {
        Statuses::Nothing | Statuses::Good(_, _) => Outcome::DayClosed,
        Statuses::Declining(code) => Outcome::Declined(code),
        Statuses::Fault(cause) => Outcome::Unclear(cause),
    }
}

/// Returns the outcome of an order that is completed.
#[inline(always)]
fn completion_outcome(used: &UsedTraces, order: &Order, so_far: Statuses) -> Outcome
    ensures { (book : List Entry) → AreTracesOf used.now book → result ≡ completion_outcome book order.now so_far }
{
    match order {
        Order::Register => Outcome::Registered,
        Order::Pay(_) => payment_outcome(used, so_far),
        Order::Reverse(_) => reversal_outcome(so_far),
        Order::CloseDay | Order::Cancel => closing_outcome(so_far),
    }
}

/// Returns the outcome of an order that was broken off: the plain one if every status before was a decline.
#[inline(always)]
fn broken_outcome(so_far: Statuses, plain: Outcome) -> Outcome
    ensures { result ≡ broken_outcome so_far plain }
{
    match so_far {
        Statuses::Nothing | Statuses::Declining(_) => plain,
        Statuses::Good(_, _) | Statuses::Fault(_) => Outcome::Unclear(Cause::AbortAfterApproval),
    }
}

/// Returns the outcome of the running order after this event, if the entries have these trace numbers.
#[inline(always)]
pub fn outcome_by(
    used: &UsedTraces,
    order: &Order,
    so_far: &Statuses,
    happening: &Happening,
) -> Outcome
    ensures { (book : List Entry) → AreTracesOf used.now book → result ≡ outcome_by book order.now so_far.now
        happening.now }
{
    match happening {
        Happening::Heard(Heard::Completion) => completion_outcome(used, order, *so_far),
        Happening::Heard(Heard::Abort(code)) => broken_outcome(*so_far, Outcome::Aborted(*code)),
        Happening::Heard(Heard::Negative(code)) => broken_outcome(*so_far, Outcome::Refused(*code)),
        Happening::Lost => Outcome::Unclear(Cause::Line),
        Happening::Malformed => Outcome::Unclear(Cause::Malformed),
        _ => Outcome::Unclear(Cause::Unfinished),
    }
}
