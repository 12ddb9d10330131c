//! Judges the orders of a day, one after another.
ghost use Rattle.std.specs.Prelude.{◌≡◌, ◌++◌, ◌∷◌, [], List, None, IfOk, OnOk};
ghost use Rattle.zvt_till.specs.Segments.{begun};
ghost use Rattle.zvt_till.specs.declared.orders.Order.TheVariants as order;
ghost use Rattle.zvt_report.specs.Chapters.{Noted, chapters, noted};
ghost use Rattle.zvt_report.specs.Day.{approval_at, approval_by, day_of, judged_as};
ghost use Rattle.zvt_report.specs.Judging.{HasJudged, IsJudged, added, goes_on, opened, row_at};
ghost use Rattle.zvt_report.specs.Judging.{with_outcome};
ghost use Rattle.zvt_report.specs.Naming.{reversing};
ghost use Rattle.zvt_till.specs.declared.happenings.Happening.TheVariants.{Sent as SentOut};

use crate::books::DayBooks;
use crate::naming::reversing;
use crate::rows::{Approval, OrderRow};
use std::alloc::{AllocError, Global};
use std::marker::Model;
use zvt_bcd::{Amount, Currency, Trace};
use zvt_till::{
    Cause, Doubt, Entry, Happening, Heard, Order, Outcome, Rules, Running, Sent, StatusFacts,
    Statuses, UsedTraces, begun, demand_of, ends, force_after, listened, outcome_by,
};

/// Returns the order of a till as which this one is judged. One that this till never sends counts as completed unless
/// a status says otherwise, like an end of day.
fn judged_as(sent: &Sent) -> Order
    ensures { result ≡ judged_as sent.now }
{
    match sent {
        Sent::Register(_) => Order::Register,
        Sent::Pay(amount) => Order::Pay(*amount),
        Sent::Reverse(entry) => Order::Reverse(*entry),
        Sent::CloseDay | Sent::Foreign => Order::CloseDay,
        Sent::Cancel => Order::Cancel,
    }
}

/// Returns the approval that a status at this line states, if any.
fn approval_by(line: u64, status: &StatusFacts) -> Option<Approval>
    ensures { result ≡ approval_by line status.now }
{
    if status.result != Some(0) {
        return None;
    }
    Some(Approval {
        line,
        amount: status.amount?,
        trace: status.trace,
        receipt: status.receipt,
    })
}

/// Returns the approval that this event states, if any.
fn approval_at(line: u64, happening: &Happening) -> Option<Approval>
    ensures { result ≡ approval_at (noted line happening.now) }
{
    match happening {
        Happening::Heard(Heard::Status(status)) => approval_by(line, status),
        _ => None,
    }
}

/// An order that has not ended.
#[derive(Clone, Copy)]
pub struct OpenOrder {
    sent: Sent,
    /// The currency in force when it was sent, if any.
    currency: Option<Currency>,
    first: u64,
    last: u64,
    running: Running,
    approval: Option<Approval>,
}

impl OpenOrder {
    /// Starts an order that was just sent.
    fn new(currency: Option<Currency>, sent: Sent, line: u64) -> OpenOrder
        ensures { result ≡ opened currency sent line }
    {
        let order = judged_as(&sent);
        OpenOrder {
            sent,
            currency,
            first: line,
            last: line,
            running: Running {
                order,
                positive: false,
                statuses: Statuses::Nothing,
            },
            approval: None,
        }
    }

    /// Returns the order after an event that does not end it, in this book.
    fn after(
        &self,
        book: &[Entry],
        unclear: &[(Amount, Cause)],
        line: u64,
        happening: &Happening,
    ) -> OpenOrder
        ensures { result ≡ goes_on book.now unclear.now self.now (noted line happening.now) }
    {
        let order = &self.running.order;
        let demand = demand_of(Rules::strict(), self.currency, book, unclear, order);
        OpenOrder {
            sent: self.sent,
            currency: self.currency,
            first: self.first,
            last: line,
            running: listened(&demand, &self.running, happening),
            approval: self.approval.or(approval_at(line, happening)),
        }
    }

    /// Returns the row of the order if it ends like this at this line.
    fn row(&self, last: u64, outcome: Outcome) -> OrderRow
        ensures { result ≡ row_at self.now last outcome }
    {
        OrderRow {
            order: self.sent,
            first: self.first,
            last,
            outcome,
            approval: self.approval,
            time: None,
            card: None,
        }
    }
}

/// The orders of a day that is still growing. Each event is judged immediately, and none is stored.
#[derive(Drop)]
pub struct Day {
    book: Vec<Entry>,
    unclear: Vec<(Amount, Cause)>,
    orders: Vec<OrderRow>,
    /// The trace numbers of the book.
    used: UsedTraces,
    /// The order that has not ended yet.
    current: Option<OpenOrder>,
    /// The currency in force, if any.
    currency: Option<Currency>,
}

impl Model for Day {
    ghost use Rattle.zvt_till.specs.UsedTraces.{AreTracesOf};
    ghost use Rattle.zvt_report.specs.Judging.{DaySoFar};

    ghost Value = { DaySoFar };

    ghost view = { λ d. record {
      day = record { book = d.book.items; unclear = d.unclear.items; orders = d.orders.items };
      current = d.current;
      currency = d.currency;
    } };

    ghost invariant = { λ d. AreTracesOf d.used d.book.items };
}

impl Day {
    /// Starts a day without orders.
    pub fn new(alloc: Global) -> Day
        ensures { HasJudged [] result }
    {
        Day {
            book: Vec::new(alloc),
            unclear: Vec::new(alloc),
            orders: Vec::new(alloc),
            used: UsedTraces::new(alloc),
            current: None,
            currency: None,
        }
    }

    /// Records the outcome of a payment of this amount.
    fn end_payment(&mut self, amount: Amount, outcome: &Outcome) -> Result<(), AllocError>
        ensures { OnOk result (self.new ≡ with_outcome self.old (order.Pay amount) outcome.now) }
    {
        match outcome {
            Outcome::Paid { trace, receipt } => {
                self.used.reserve_for()?;
                self.book.push(Entry {
                    amount,
                    trace: *trace,
                    receipt: *receipt,
                    reversed: false,
                    doubt: Doubt::No,
                })?;
                self.used.insert(*trace);
            }
            Outcome::Unclear(cause) => self.unclear.push((amount, *cause))?,
            _ => {}
        }
        Ok(())
    }

    /// Records the outcome of a reversal of the entry at this place.
    fn end_reversal(&mut self, place: usize, outcome: &Outcome)
        ensures { self.new ≡ with_outcome self.old (order.Reverse place) outcome.now }
    {
        if place < self.book.len() {
            self.book[place].end_reversal(outcome);
        }
    }

    /// Records the outcome of an order.
    fn end_order(&mut self, order: &Sent, outcome: &Outcome) -> Result<(), AllocError>
        ensures { OnOk result (self.new ≡ with_outcome self.old (judged_as order.now) outcome.now) }
    {
        match order {
            Sent::Pay(amount) => self.end_payment(*amount, outcome),
            Sent::Reverse(place) => {
                self.end_reversal(*place, outcome);
                Ok(())
            }
            _ => Ok(()),
        }
    }

    /// Adds the row of an order that has ended, and records its outcome.
    fn add(&mut self, row: OrderRow) -> Result<(), AllocError>
        ensures { OnOk result (self.new ≡ added self.old row) }
    {
        // Names a type in a row, which the proof asks for.
        let _trace: Option<Trace> = None;
        self.end_order(&row.order, &row.outcome)?;
        self.orders.push(row)?;
        Ok(())
    }

    /// Ends the running order as unfinished.
    fn close(&mut self) -> Result<(), AllocError>
        ensures day { OnOk result ((notes : List Noted) → HasJudged notes self.old → self.new.day ≡ day_of notes) }
        ensures currency { OnOk result (self.new.currency ≡ self.old.currency) }
    {
        if let Some(open) = self.current {
            self.add(open.row(open.last, Outcome::Unclear(Cause::Unfinished)))?;
        }
        Ok(())
    }

    /// Ends the day, and the running order as unfinished.
    pub fn finish(self) -> Result<DayBooks, AllocError>
        ensures { IfOk result (λ books. (notes : List Noted) → HasJudged notes self → books ≡ day_of notes) }
    {
        let mut day = self;
        day.close()?;
        Ok(DayBooks {
            book: day.book,
            unclear: day.unclear,
            orders: day.orders,
        })
    }

    /// Judges the next event, which stands at this line. If an allocation fails, the day is no longer valid.
    pub fn take(&mut self, line: u64, happening: &Happening) -> Result<(), AllocError>
        ensures { OnOk result ((notes : List Noted) → HasJudged notes self.old
            → HasJudged (notes ++ noted line happening.now ∷ []) self.new) }
    {
        match begun(happening) {
            Some(order) => {
                self.close()?;
                self.current = Some(OpenOrder::new(self.currency, order, line));
            }
            None => self.answer(line, happening)?,
        }
        self.currency = force_after(self.currency, happening);
        Ok(())
    }

    /// Judges a reversal that was sent at this line and names this receipt number, if it names exactly one. It takes
    /// back the last payment with that number; without such a payment, it is an order that the book does not know.
    pub fn reverse(&mut self, line: u64, receipt: Option<[u8; 2]>) -> Result<(), AllocError>
        ensures { OnOk result ((notes : List Noted) → HasJudged notes self.old → HasJudged
            (notes ++ noted line (SentOut (reversing (day_of notes).book receipt)) ∷ []) self.new) }
    {
        self.close()?;
        let order = reversing(&self.book, receipt);
        self.current = Some(OpenOrder::new(self.currency, order, line));
        Ok(())
    }

    /// Judges an event that begins no order.
    fn answer(&mut self, line: u64, happening: &Happening) -> Result<(), AllocError>
        requires none { begun happening.now ≡ None }
        ensures judged { OnOk result ((notes : List Noted) → HasJudged notes self.old
            → IsJudged (chapters (notes ++ noted line happening.now ∷ [])) self.new.day self.new.current) }
        ensures currency { OnOk result (self.new.currency ≡ self.old.currency) }
    {
        let Some(open) = self.current else {
            return Ok(());
        };
        let running = &open.running;
        if ends(running.positive, happening) {
            let outcome = outcome_by(&self.used, &running.order, &running.statuses, happening);
            self.add(open.row(line, outcome))?;
            self.current = None;
        } else {
            self.current = Some(open.after(&self.book, &self.unclear, line, happening));
        }
        Ok(())
    }
}
