//! The rows of a report.
use crate::cards::Card;
use zvt_bcd::{Amount, Trace};
use zvt_till::{Outcome, Sent};
use zvt_trace::Moment;

/// What a status information with result 00 and exactly one amount states.
#[derive(Clone, Copy)]
pub struct Approval {
    /// The line of the trace at which the status information ends, counted from 1.
    pub line: u64,
    pub amount: Amount,
    /// The trace number, if there is exactly one.
    pub trace: Option<Trace>,
    /// The receipt number, if there is exactly one.
    pub receipt: Option<[u8; 2]>,
}

/// An order of the till, and what became of it.
#[derive(Clone, Copy)]
pub struct OrderRow {
    pub order: Sent,
    /// The line of the trace at which the order's message ends, counted from 1.
    pub first: u64,
    /// The line at which the order ended, or the last one before the next order.
    pub last: u64,
    /// How the order ended. An order that did not end is unclear.
    pub outcome: Outcome,
    /// The first approval that the terminal stated before the end.
    pub approval: Option<Approval>,
    /// The moment of the first line, if the trace has a time mark for it.
    pub time: Option<Moment>,
    /// The card that the terminal named first in an approval.
    pub card: Option<Card>,
}

/// What the message of an order says beside the order itself.
#[derive(Clone, Copy)]
pub struct OrderMessage {
    /// The first control byte.
    pub high: u8,
    /// The second control byte.
    pub low: u8,
    /// The amount, if there is exactly one.
    pub amount: Option<Amount>,
    /// The receipt number of the payment to take back, if there is exactly one.
    pub receipt: Option<[u8; 2]>,
}
