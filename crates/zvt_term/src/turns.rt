//! The terminal's state after a message.
use crate::ledger::Row;
use crate::messages::{Line, Response};
use zvt_bcd::Currency;

/// The terminal's decision on an authorisation.
#[derive(Clone, Copy)]
pub enum Verdict {
    Approve,
    /// Decline it with this result code.
    Decline(u8),
}

/// The terminal's progress in an order, which advances with each reply of the till.
#[derive(Clone, Copy)]
pub enum Phase {
    /// No order runs.
    Idle,
    /// The terminal prints this line next, and then completes the order.
    Printing(Line),
    /// The terminal sends the completion next.
    Completing,
    /// The terminal sends an abort with this code next.
    Aborting(u8),
    /// The terminal has sent everything, and the till's next reply ends the order.
    Ending,
}

/// The terminal's state after a message, and its replies.
#[derive(Clone, Copy)]
pub(crate) struct Turn {
    pub registered: bool,
    /// The currency of the registration that the terminal stores.
    pub currency: Option<Currency>,
    pub phase: Phase,
    /// The row that it adds to the ledger.
    pub row: Option<Row>,
    pub reply: Response,
}
