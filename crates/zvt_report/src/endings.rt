//! What became of an order, in a word.
ghost use Rattle.std.specs.Prelude.{◌≡◌};
ghost use Rattle.zvt_report.specs.Words.{completed_as, ending_of};

use zvt_till::{Outcome, Sent};

/// What became of an order, in a word.
#[derive(Clone, Copy)]
pub(crate) enum Ending {
    /// An order without a result in the book was completed.
    Completed,
    Paid,
    Reversed,
    /// The day was closed.
    Closed,
    Declined,
    Aborted,
    Refused,
    /// It is unknown whether the order took effect.
    Unclear,
}

impl Ending {
    ghost use Rattle.std.specs.Prelude.{◌≡◌};
    ghost use Rattle.zvt_report.specs.Words.{ending_name};

    /// Returns the word as every output writes it.
    pub(crate) fn name(self) -> &'static str
        ensures { result.now ≡ ending_name self }
    {
        match self {
            Ending::Completed => "completed",
            Ending::Paid => "paid",
            Ending::Reversed => "reversed",
            Ending::Closed => "closed",
            Ending::Declined => "declined",
            Ending::Aborted => "aborted",
            Ending::Refused => "refused",
            Ending::Unclear => "unclear",
        }
    }
}

/// Returns what became of an order that was completed and is neither a payment nor a reversal.
fn completed_as(order: &Sent) -> Ending
    ensures { result ≡ completed_as order.now }
{
    match order {
        Sent::CloseDay => Ending::Closed,
        _ => Ending::Completed,
    }
}

/// Returns what became of an order with this outcome.
pub(crate) fn ending_of(order: &Sent, outcome: &Outcome) -> Ending
    ensures { result ≡ ending_of order.now outcome.now }
{
    match outcome {
        Outcome::Registered => Ending::Completed,
        Outcome::Paid { .. } => Ending::Paid,
        Outcome::Declined(_) => Ending::Declined,
        Outcome::Refused(_) => Ending::Refused,
        Outcome::Aborted(_) => Ending::Aborted,
        Outcome::Unclear(_) => Ending::Unclear,
        Outcome::Reversed => Ending::Reversed,
        Outcome::DayClosed => completed_as(order),
    }
}
