//! Keeps the books of a log that is still growing.
//!
//! Functions that an audit calls for every message are `#[inline(always)]`. Functions that few messages need are
//! `#[inline(never)]`, to keep that path short.
ghost use Rattle.std.specs.Prelude.{◌≡◌, ◌++◌, ◌∷◌, [], List, length, IfOk, OnOk};
ghost use Rattle.zvt_till.specs.Books.{books};
ghost use Rattle.zvt_till.specs.declared.happenings.Happening.TheVariants.{Heard as HeardIn};
ghost use Rattle.zvt_till.specs.declared.messages.Heard.TheVariants.{Completion, Status};
ghost use Rattle.zvt_till.specs.Hearing.{facts_in_fields, heard_as};
ghost use Rattle.zvt_till.specs.Judging.{HasJudged, books_value};

use crate::happenings::{Happening, force_after};
use crate::hearing::{facts_shown, heard_view};
use crate::log_books::{Books, OpenPayment};
use crate::messages::Heard;
use crate::statuses::Statuses;
use std::alloc::{AllocError, Global};
use std::marker::Model;
use zvt_apdu::{ApduView, Kind};
use zvt_bcd::{Currency, Trace};
use zvt_field::FieldsView;

/// The books of a log that is still growing. Each event is judged immediately, and none is stored.
#[derive(Drop)]
pub struct Bookkeeping {
    found: Books,
    /// The payment that has not ended yet.
    running: Option<OpenPayment>,
    /// The currency in force, if any.
    currency: Option<Currency>,
}

impl Model for Bookkeeping {
    ghost use Rattle.zvt_till.specs.Judging.{BooksSoFar, KnowsTraces, books_value};

    ghost Value = { BooksSoFar };

    ghost view = { λ b. record { books = books_value b.found; running = b.running; currency = b.currency } };

    ghost invariant = { λ b. KnowsTraces b.found };
}

impl Bookkeeping {
    /// Creates the books of an empty log.
    pub fn new(alloc: Global) -> Bookkeeping
        ensures { HasJudged [] result }
    {
        Bookkeeping {
            found: Books::new(alloc),
            running: None,
            currency: None,
        }
    }

    /// Judges the next event. If an allocation fails, the books are no longer valid.
    #[inline(always)]
    pub fn take(&mut self, happening: &Happening) -> Result<(), AllocError>
        ensures { OnOk result ((log : List Happening) → HasJudged log self.old → HasJudged (log ++ happening.now ∷ [])
            self.new) }
    {
        // Names the types in a running payment, which the proof asks for.
        let _statuses: Option<Statuses> = None;
        let _trace: Option<Trace> = None;
        self.found
            .take(&mut self.running, self.currency, happening)?;
        self.currency = force_after(self.currency, happening);
        Ok(())
    }

    /// Processes a message of the terminal like `take`, and returns early for most messages.
    #[inline(always)]
    pub fn hear(&mut self, apdu: &ApduView<'_>) -> Result<(), AllocError>
        ensures { OnOk result ((log : List Happening) → HasJudged log self.old
            → HasJudged (log ++ HeardIn (heard_as apdu.now) ∷ []) self.new) }
    {
        match apdu.kind() {
            Kind::Intermediate | Kind::PrintLine | Kind::TextBlock => Ok(()),
            Kind::Ack => {
                if let Some(payment) = &mut self.running {
                    payment.positive = true;
                }
                Ok(())
            }
            Kind::Status => match apdu.fields() {
                Some(fields) => {
                    self.note(&fields);
                    Ok(())
                }
                None => unreachable!(),
            },
            Kind::Completion => self.complete(),
            _ => self.hear_rare(apdu),
        }
    }

    /// Records what the fields of a status say about the running payment.
    #[inline(never)]
    fn note(&mut self, fields: &FieldsView<'_>)
        ensures { (log : List Happening) → HasJudged log self.old
            → HasJudged (log ++ HeardIn (Status (facts_in_fields fields.now)) ∷ []) self.new }
    {
        if let Some(payment) = &mut self.running {
            payment.note(&facts_shown(fields));
        }
    }

    /// Completes the running order.
    #[inline(never)]
    fn complete(&mut self) -> Result<(), AllocError>
        ensures { OnOk result ((log : List Happening) → HasJudged log self.old
            → HasJudged (log ++ HeardIn Completion ∷ []) self.new) }
    {
        self.take(&Happening::Heard(Heard::Completion))
    }

    /// Judges a message of any kind.
    #[inline(never)]
    fn hear_rare(&mut self, apdu: &ApduView<'_>) -> Result<(), AllocError>
        ensures { OnOk result ((log : List Happening) → HasJudged log self.old
            → HasJudged (log ++ HeardIn (heard_as apdu.now) ∷ []) self.new) }
    {
        self.take(&Happening::Heard(heard_view(apdu)))
    }

    /// Returns the number of completed payments.
    #[inline(always)]
    pub fn booked_count(&self) -> usize
        ensures { result ≡ length self.now.books.booked }
    {
        self.found.booked.len()
    }

    /// Returns the number of unclear payments, not counting the one in progress.
    #[inline(always)]
    pub fn unclear_count(&self) -> usize
        ensures { result ≡ length self.now.books.unclear }
    {
        self.found.unclear.len()
    }

    /// Ends the log. A payment that has not ended is unfinished.
    pub fn close(self) -> Result<Books, AllocError>
        ensures { IfOk result (λ found. (log : List Happening) → HasJudged log self → books_value found ≡ books log) }
    {
        let Bookkeeping { found, running, .. } = self;
        let mut found = found;
        found.close(&running)?;
        Ok(found)
    }
}

/// Returns the payments of a log, each judged by everything heard before the next order. Accepts any log, even one
/// that no till of this crate can have. Fails only if memory runs out.
pub fn books(alloc: Global, log: &[Happening]) -> Result<Books, AllocError>
    ensures { IfOk result (λ found. books_value found ≡ books log.now) }
{
    let mut keeping = Bookkeeping::new(alloc);
    for happening in log {
        keeping.take(happening)?;
    }
    keeping.close()
}
