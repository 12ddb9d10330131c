//! A log's payments, judged one after another.
//!
//! Functions that an audit calls for every event are `#[inline(always)]`.
ghost use Rattle.std.specs.Prelude.{◌≡◌, ◌++◌, ◌∷◌, [], ◌||◌, List, OnOk};
ghost use Rattle.zvt_till.specs.Segments.{in_force, is_positive, status_of};
ghost use Rattle.zvt_till.specs.Books.{books};
ghost use Rattle.zvt_till.specs.Outcomes.{note, note_if};
ghost use Rattle.zvt_till.specs.Judging.{books_value, written, paying, opened, IsJudged, KnowsTraces};

use crate::happenings::{Happening, Sent, begun, ends};
use crate::messages::{Heard, StatusFacts};
use crate::orders::Order;
use crate::outcomes::{Cause, Outcome, outcome_by};
use crate::statuses::{Charge, Demand, Statuses, note};
use crate::used_traces::UsedTraces;
use std::alloc::{AllocError, Global};
use zvt_bcd::{Amount, Currency, Trace};

/// A completed payment of a log.
#[derive(Clone, Copy, Debug, PartialEq, Eq)]
pub struct Booked {
    pub amount: Amount,
    /// The trace number that the terminal gave it. No other row has this number.
    pub trace: Trace,
    /// The receipt number from the first status information.
    pub receipt: Option<[u8; 2]>,
}

/// The payments that a log justifies. Payments that certainly did not happen are in neither list.
#[derive(Drop)]
pub struct Books {
    /// The completed payments, in the order of their orders.
    pub booked: Vec<Booked>,
    /// The unclear payments, in the order of their orders.
    pub unclear: Vec<(Amount, Cause)>,
    /// The trace numbers of the completed payments.
    pub(crate) used: UsedTraces,
}

/// A payment that has not ended: whether it had a positive answer, and the meaning of its statuses so far.
#[derive(Clone, Copy)]
pub struct OpenPayment {
    pub amount: Amount,
    /// The currency in force when it was sent, if any.
    pub currency: Option<Currency>,
    pub positive: bool,
    pub statuses: Statuses,
}

/// Returns the payment that the order begins under this currency, if it is one.
#[inline(always)]
fn opened(currency: Option<Currency>, order: &Sent) -> Option<OpenPayment>
    ensures { result ≡ opened currency order.now }
{
    match order {
        Sent::Pay(amount) => Some(OpenPayment {
            amount: *amount,
            currency,
            positive: false,
            statuses: Statuses::Nothing,
        }),
        _ => None,
    }
}

impl OpenPayment {
    /// Records the meaning of one more status.
    #[inline(always)]
    pub(crate) fn note(&mut self, status: &StatusFacts)
        ensures amount { self.new.amount ≡ self.old.amount }
        ensures currency { self.new.currency ≡ self.old.currency }
        ensures positive { self.new.positive ≡ self.old.positive }
        ensures statuses { self.new.statuses ≡ note (paying self.old.currency self.old.amount) self.old.statuses
            status.now }
    {
        let charge = Charge {
            amount: self.amount,
            currency: self.currency,
        };
        self.statuses = note(&Some(Demand::Payment(charge)), self.statuses, status);
    }

    /// Processes an event that does not end it.
    #[inline(always)]
    fn listen(&mut self, happening: &Happening)
        ensures amount { self.new.amount ≡ self.old.amount }
        ensures currency { self.new.currency ≡ self.old.currency }
        ensures positive { self.new.positive ≡ (self.old.positive || is_positive happening.now) }
        ensures statuses { self.new.statuses ≡ note_if (paying self.old.currency self.old.amount) self.old.statuses
            (status_of happening.now) }
    {
        match happening {
            Happening::Heard(Heard::Positive) => self.positive = true,
            Happening::Heard(Heard::Status(status)) => self.note(status),
            _ => {}
        }
    }
}

impl Books {
    /// Creates books without rows.
    pub(crate) fn new(alloc: Global) -> Books
        ensures none { books_value result ≡ books [] }
        ensures traces { KnowsTraces result }
    {
        Books {
            booked: Vec::new(alloc),
            unclear: Vec::new(alloc),
            used: UsedTraces::new(alloc),
        }
    }

    /// Records the outcome of a payment of this amount.
    fn write(&mut self, amount: Amount, outcome: &Outcome) -> Result<(), AllocError>
        requires { KnowsTraces self.old }
        ensures written { OnOk result (books_value self.new ≡ written (books_value self.old) amount outcome.now) }
        ensures traces { KnowsTraces self.new }
    {
        match outcome {
            Outcome::Paid { trace, receipt } => {
                self.used.reserve_for()?;
                self.booked.push(Booked {
                    amount,
                    trace: *trace,
                    receipt: *receipt,
                })?;
                self.used.insert(*trace);
            }
            Outcome::Unclear(cause) => self.unclear.push((amount, *cause))?,
            _ => {}
        }
        Ok(())
    }

    /// Ends the running payment as unfinished.
    pub(crate) fn close(&mut self, running: &Option<OpenPayment>) -> Result<(), AllocError>
        requires { KnowsTraces self.old }
        ensures closed { OnOk result ((log : List Happening) → IsJudged log (books_value self.old) running.now
            → books_value self.new ≡ books log) }
        ensures traces { KnowsTraces self.new }
    {
        if let Some(payment) = running {
            self.write(payment.amount, &Outcome::Unclear(Cause::Unfinished))?;
        }
        Ok(())
    }

    /// Processes the next event under the currency in force before it.
    #[inline(always)]
    pub(crate) fn take(
        &mut self,
        running: &mut Option<OpenPayment>,
        currency: Option<Currency>,
        happening: &Happening,
    ) -> Result<(), AllocError>
        requires { KnowsTraces self.old }
        ensures traces { KnowsTraces self.new }
        ensures judged { OnOk result ((log : List Happening) → currency ≡ in_force log
            → IsJudged log (books_value self.old) running.old → IsJudged (log ++ happening.now ∷ [])
            (books_value self.new) running.new) }
    {
        if let Some(order) = begun(happening) {
            self.close(running)?;
            *running = opened(currency, &order);
            return Ok(());
        }
        let Some(payment) = running else {
            return Ok(());
        };
        if ends(payment.positive, happening) {
            let order = Order::Pay(payment.amount);
            let outcome = outcome_by(&self.used, &order, &payment.statuses, happening);
            self.write(payment.amount, &outcome)?;
            *running = None;
            return Ok(());
        }
        payment.listen(happening);
        Ok(())
    }
}
