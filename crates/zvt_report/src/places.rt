//! The numbers of orders and payments, and the entries of the book that they booked or take back.
//!
//! A caller goes through the rows from the first one and keeps the counts of those before.
ghost use Rattle.std.specs.Prelude.{◌≡◌, ◌+◌, ◌<◌, ◌≤◌, ◌^◌, length};
ghost use Rattle.std.specs.List.{position};
ghost use Rattle.zvt_report.specs.Places.{books_as, entries_by, entry_by, payment_by, payment_of, payments_by};
ghost use Rattle.zvt_report.specs.Places.{payments_in};
ghost use Rattle.zvt_report.specs.Places.{reversed_by, takes_back};

use crate::rows::OrderRow;
use zvt_till::{Outcome, Sent};

/// The number of an order, and its entry in the book.
#[derive(Clone, Copy)]
pub(crate) struct Place {
    /// The number of the order, counted from 1.
    pub(crate) order: usize,
    /// The number of the payment, counted from 1, if the order is one.
    pub(crate) payment: Option<usize>,
    /// The index in the book of the entry that the payment booked, or that the reversal takes back.
    pub(crate) entry: Option<usize>,
}

/// How many orders, payments and booked payments came before a row.
#[derive(Clone, Copy)]
pub(crate) struct Counts {
    pub(crate) orders: usize,
    pub(crate) payments: usize,
    pub(crate) entries: usize,
}

impl Counts {
    ghost use Rattle.std.specs.Prelude.{◌≡◌};
    ghost use Rattle.zvt_report.specs.Places.{HasRoom, counted, no_counts, place_after};

    /// Starts before the first row.
    pub(crate) fn none() -> Counts
        ensures { result ≡ no_counts }
    {
        Counts {
            orders: 0,
            payments: 0,
            entries: 0,
        }
    }

    /// Returns the place of the next row.
    pub(crate) fn place(&self, row: &OrderRow) -> Place
        requires { HasRoom self.now }
        ensures { result ≡ place_after self.now row.now }
    {
        Place {
            order: self.orders + 1,
            payment: payment_by(self.payments, &row.order),
            entry: entry_by(self.entries, &row.order, &row.outcome),
        }
    }

    /// Returns the counts after the next row.
    pub(crate) fn after(&self, row: &OrderRow) -> Counts
        requires { HasRoom self.now }
        ensures { result ≡ counted self.now row.now }
    {
        Counts {
            orders: self.orders + 1,
            payments: self.payments + payments_by(&row.order),
            entries: self.entries + entries_by(&row.order, &row.outcome),
        }
    }
}

/// Returns the number of this order among the payments, if it is one. `payments` have come before.
fn payment_by(payments: usize, order: &Sent) -> Option<usize>
    requires { payments + 1 < 2 ^ 64 }
    ensures { result ≡ payment_by payments order.now }
{
    match order {
        Sent::Pay(_) => Some(payments + 1),
        _ => None,
    }
}

/// Returns the entry that a payment booked, if `entries` have come before, or the one that a reversal takes back.
fn entry_by(entries: usize, order: &Sent, outcome: &Outcome) -> Option<usize>
    ensures { result ≡ entry_by entries order.now outcome.now }
{
    match (order, outcome) {
        (Sent::Pay(_), Outcome::Paid { .. }) => Some(entries),
        (Sent::Reverse(place), _) => Some(*place),
        _ => None,
    }
}

/// Returns 1 for a payment, and 0 for another order.
fn payments_by(order: &Sent) -> usize
    ensures { result ≡ payments_by order.now }
{
    match order {
        Sent::Pay(_) => 1,
        _ => 0,
    }
}

/// Returns 1 for a payment that was booked, and 0 for another order.
fn entries_by(order: &Sent, outcome: &Outcome) -> usize
    ensures { result ≡ entries_by order.now outcome.now }
{
    match (order, outcome) {
        (Sent::Pay(_), Outcome::Paid { .. }) => 1,
        _ => 0,
    }
}

/// Returns the number of payments among these rows.
pub(crate) fn payments_in(rows: &[OrderRow]) -> usize
    ensures value { result ≡ payments_in rows.now }
    ensures bound { result ≤ length rows.now }
{
    let mut count = 0;
    for row in rows {
        count += payments_by(&row.order);
    }
    count
}

/// Whether this is a payment that booked the entry at this place, if `entries` have come before.
fn books_as(entries: usize, place: usize, order: &Sent, outcome: &Outcome) -> bool
    ensures { result ≡ books_as entries place order.now outcome.now }
{
    match (order, outcome) {
        (Sent::Pay(_), Outcome::Paid { .. }) => entries == place,
        _ => false,
    }
}

/// Returns the number of the payment that booked the entry at this place, counted from 1.
pub(crate) fn payment_of(place: usize, rows: &[OrderRow]) -> Option<usize>
    ensures { result ≡ payment_of place rows.now }
{
    let mut counts = Counts::none();
    let mut rest = rows;
    'rows: while let [row, later @ ..] = rest {
        if books_as(counts.entries, place, &row.order, &row.outcome) {
            return Some(counts.payments + 1);
        }
        counts = counts.after(row);
        rest = later;
    }
    None
}

/// Whether this order is a reversal that took back the entry at this place.
pub(crate) fn takes_back(place: usize, row: &OrderRow) -> bool
    ensures { result ≡ takes_back place row.now }
{
    match (&row.order, &row.outcome) {
        (Sent::Reverse(own), Outcome::Reversed) => *own == place,
        _ => false,
    }
}

/// Returns the index of the first order that took back the entry at this place.
fn first_taking_back(place: usize, rows: &[OrderRow]) -> Option<usize>
    ensures { result ≡ position (takes_back place) rows.now }
{
    rows.iter().position(|row| takes_back(place, row))
}

/// Returns the number of the first order that took back the entry at this place, counted from 1.
pub(crate) fn reversed_by(place: usize, rows: &[OrderRow]) -> Option<usize>
    ensures { result ≡ reversed_by place rows.now }
{
    let skipped = first_taking_back(place, rows)?;
    Some(skipped + 1)
}
