//! The orders and the book of a day that has ended.
use crate::rows::OrderRow;
use std::marker::Model;
use zvt_bcd::Amount;
use zvt_till::{Cause, Entry};

/// The orders of a day that has ended, and its book.
#[derive(Drop)]
pub struct DayBooks {
    /// The payments that were booked, in the order of their completion.
    pub book: Vec<Entry>,
    /// The unclear payments: the amount and the cause of each.
    pub unclear: Vec<(Amount, Cause)>,
    /// A row for each order, in the order in which they were sent.
    pub orders: Vec<OrderRow>,
}

impl Model for DayBooks {
    ghost use Rattle.zvt_report.specs.Day.{DayValue};

    ghost Value = { DayValue };

    ghost view = { λ d. record { book = d.book.items; unclear = d.unclear.items; orders = d.orders.items } };
}
