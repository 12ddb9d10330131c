//! The refunds of a simulated terminal, which are no rows of its ledger.
ghost use Rattle.std.specs.Prelude.{◌≡◌, ◌≤◌, ◌&&◌, length, nat_lt};
ghost use Rattle.zvt_term.specs.Extended.{count_refunds, report_of_refund};

use crate::messages::Report;
use crate::terminal::MAX_LEDGER_ROWS;
use zvt_bcd::{Amount, Currency};

/// The last refund.
#[derive(Clone, Copy, Debug, PartialEq, Eq)]
pub struct Refunded {
    /// The number of refunds before it. Refunds are numbered downwards from 9999, and the rows of the ledger upwards
    /// from 1.
    pub before: u16,
    pub amount: Amount,
    /// The currency that the till's registration named, if any.
    pub currency: Option<Currency>,
    /// The number of rows in the ledger before it.
    pub rows: usize,
}

impl Refunded {
    /// Returns its status.
    pub(crate) fn report(&self) -> Report
        ensures { result ≡ report_of_refund self.now }
    {
        Report::Approved {
            amount: self.amount,
            number: (MAX_LEDGER_ROWS as u16).saturating_sub(self.before),
            currency: self.currency,
        }
    }
}

/// Returns the number of refunds up to the last one.
pub(crate) fn count_refunds(last: &Option<Refunded>) -> usize
    ensures count { result ≡ count_refunds last.now }
    ensures few { result ≤ 65536 }
{
    match last {
        None => 0,
        Some(refund) => usize::from(refund.before) + 1,
    }
}
