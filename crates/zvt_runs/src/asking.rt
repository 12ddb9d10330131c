//! The asks of a run: whether a step asks, and what the answer came to.
ghost use Rattle.std.specs.Prelude.{◌≡◌};
ghost use Rattle.zvt_settle.specs.Inside.{both_of, settling_of};
ghost use Rattle.zvt_runs.specs.Asking.{asked_in, before_of};
ghost use Rattle.zvt_runs.specs.Steps.{is_useful, wants_answer};

use crate::arguments::Step;
use zvt_settle::{Settlement, SettlingTill};
use zvt_till::Outcome;

/// What an ask came to.
#[derive(Clone, Copy)]
pub enum Asked {
    /// No order was pending.
    Nothing,
    /// An order was pending, and the answer does not settle it.
    Unsettled,
    /// The answer settles an order.
    Settled(Settlement),
}

/// How a step ended that was made to its end.
#[derive(Clone, Copy)]
pub enum Ended {
    /// The outcome of the order.
    Order(Outcome),
    /// What the ask came to.
    Ask(Asked),
}

/// What a till has settled before it asks.
#[derive(Clone, Copy)]
pub(crate) struct Before {
    /// The number of settlements.
    settled: usize,
    /// Whether an order is pending.
    pending: bool,
}

impl Before {
    /// Returns what this till has settled.
    pub(crate) fn of(till: &SettlingTill) -> Before
        ensures { result ≡ before_of (settling_of till.now) }
    {
        Before {
            settled: till.settled().len(),
            pending: till.pending().is_some(),
        }
    }

    /// Returns what an ask of this till came to.
    pub(crate) fn asked(self, till: &SettlingTill) -> Asked
        ensures { result ≡ asked_in self (settling_of till.now) }
    {
        match till.settled().get(self.settled) {
            Some(settlement) => Asked::Settled(*settlement),
            None if self.pending => Asked::Unsettled,
            None => Asked::Nothing,
        }
    }
}

/// Returns whether an answer can be of use to this till.
fn is_useful(till: &SettlingTill) -> bool
    ensures { result ≡ is_useful (both_of till.now) }
{
    till.till().registered() && (till.pending().is_some() || !till.knows_last())
}

/// Returns whether a step that gives no order asks.
pub(crate) fn wants_answer(step: &Step, till: &SettlingTill) -> bool
    ensures { result ≡ wants_answer step.now (both_of till.now) }
{
    match step {
        Step::Settle => is_useful(till),
        _ => true,
    }
}
