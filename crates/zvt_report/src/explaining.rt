//! Which orders explain that the terminal's total of a day is not the book's.
ghost use Rattle.std.specs.Prelude.{◌≡◌, ◌+◌, ◌*◌, ◌≤◌, ◌^◌};
ghost use Rattle.std.specs.List.{list_any};
ghost use Rattle.zvt_report.specs.Explaining.{added_by, at_once, explain, explained_with, item_of, money_item};
ghost use Rattle.zvt_report.specs.Explaining.{money_sign, open_item, reversal_item, taken_by};
ghost use Rattle.zvt_report.specs.Looks.{decides};

use crate::later_orders::is_decided;
use crate::parts::{amount_at, approved_of};
use crate::rows::{OrderMessage, OrderRow};
use zvt_bcd::Amount;
use zvt_till::{Entry, Outcome, Sent};

/// An order that may have changed the terminal's total, but not the book.
#[derive(Clone, Copy)]
pub(crate) struct OpenItem {
    pub(crate) amount: u64,
    /// Whether the order adds its amount to the total, or takes it from the total.
    pub(crate) adds: bool,
    /// The index of the order's row.
    pub(crate) order: usize,
}

/// The orders that explain a difference, by the indices of their rows.
#[derive(Clone, Copy)]
pub enum Explained {
    /// No orders explain it.
    Nothing,
    /// There is no difference.
    Empty,
    One(usize),
    Two(usize, usize),
    Three(usize, usize, usize),
    /// Several sets of orders would explain it.
    Several,
}

impl Explained {
    ghost use Rattle.std.specs.Prelude.{◌≡◌};
    ghost use Rattle.zvt_report.specs.Explaining.{joined, with_order};

    /// Returns these orders, after one more.
    fn with_order(self, order: usize) -> Explained
        ensures { result ≡ with_order order self }
    {
        match self {
            Explained::Nothing => Explained::Nothing,
            Explained::Empty => Explained::One(order),
            Explained::One(a) => Explained::Two(order, a),
            Explained::Two(a, b) => Explained::Three(order, a, b),
            Explained::Three(..) | Explained::Several => Explained::Several,
        }
    }

    /// Returns what explains a difference if this does, or the other one.
    fn or(self, other: Explained) -> Explained
        ensures { result ≡ joined self other }
    {
        match (self, other) {
            (Explained::Nothing, _) => other,
            (_, Explained::Nothing) => self,
            _ => Explained::Several,
        }
    }
}

/// Returns what this order adds to the terminal's total.
fn added_by(item: &OpenItem) -> u128
    ensures value { result ≡ added_by item.now }
    ensures bound { result ≤ 2 ^ 64 }
{
    if item.adds {
        u128::from(item.amount)
    } else {
        0
    }
}

/// Returns what this order takes from the terminal's total.
fn taken_by(item: &OpenItem) -> u128
    ensures value { result ≡ taken_by item.now }
    ensures bound { result ≤ 2 ^ 64 }
{
    if item.adds {
        0
    } else {
        u128::from(item.amount)
    }
}

/// Returns whether a difference is explained by no order.
fn at_once(booked: u128, covered: u128) -> Explained
    ensures { result ≡ at_once booked covered }
{
    if booked == covered {
        Explained::Empty
    } else {
        Explained::Nothing
    }
}

/// Returns the orders of the only set of at most `most` items with which the book is the terminal's total.
fn explained_with(most: usize, booked: u128, covered: u128, items: &[OpenItem]) -> Explained
    requires few { most ≤ 3 }
    requires booked { booked + most * 2 ^ 64 ≤ 2 ^ 127 }
    requires covered { covered + most * 2 ^ 64 ≤ 2 ^ 127 }
    ensures { result ≡ explained_with most booked covered items.now }
{
    if most == 0 {
        return at_once(booked, covered);
    }
    let [item, later @ ..] = items else {
        return at_once(booked, covered);
    };
    let with_item = explained_with(
        most - 1,
        booked + added_by(item),
        covered + taken_by(item),
        later,
    );
    let without = explained_with(most, booked, covered, later);
    with_item.with_order(item.order).or(without)
}

/// The greatest number of open items whose sets are tried.
const MOST_ITEMS: usize = 64;

/// Returns the orders of the only set of at most three items with which the book is the terminal's total.
pub(crate) fn explain(booked: u128, covered: u128, items: &[OpenItem]) -> Explained
    requires booked { booked ≤ 2 ^ 126 }
    requires covered { covered ≤ 2 ^ 126 }
    ensures { result ≡ explain booked covered items.now }
{
    if items.len() <= MOST_ITEMS {
        explained_with(3, booked, covered, items)
    } else {
        Explained::Nothing
    }
}

/// Returns whether an order that moves money beside the book adds to the terminal's total, or takes from it.
fn money_sign(high: u8, low: u8) -> Option<bool>
    ensures { result ≡ money_sign high low }
{
    if high != 0x06 {
        return None;
    }
    match low {
        0x31 => Some(false),
        0x04 | 0x09 | 0x21 | 0x24 => Some(true),
        _ => None,
    }
}

/// Returns the item of this order, if its amount is known.
fn item_of(adds: bool, order: usize, amount: Option<Amount>) -> Option<OpenItem>
    ensures { result ≡ item_of adds order amount }
{
    Some(OpenItem {
        amount: amount?.get(),
        adds,
        order,
    })
}

/// Returns the item of an order that moves money beside the book.
fn money_item(message: &OrderMessage, order: usize, row: &OrderRow) -> Option<OpenItem>
    ensures { result ≡ money_item message.now order row.now.approval }
{
    let adds = money_sign(message.high, message.low)?;
    item_of(adds, order, message.amount.or(approved_of(row)))
}

/// Returns the item of an unclear reversal of the entry at this place, unless a later one decided it.
fn reversal_item(book: &[Entry], later: &[OrderRow], place: usize, order: usize) -> Option<OpenItem>
    ensures { result ≡ reversal_item book.now later.now place order }
{
    if is_decided(place, later) {
        return None;
    }
    item_of(false, order, amount_at(book, Some(place)))
}

/// Returns the item of an order, if the order may have changed the terminal's total but not the book.
pub(crate) fn open_item(
    book: &[Entry],
    message: &OrderMessage,
    order: usize,
    row: &OrderRow,
    later: &[OrderRow],
) -> Option<OpenItem>
    ensures { result ≡ open_item book.now message.now order row.now later.now }
{
    match (&row.order, &row.outcome) {
        (Sent::Pay(amount), Outcome::Unclear(_)) => Some(OpenItem {
            amount: amount.get(),
            adds: true,
            order,
        }),
        (Sent::Reverse(place), Outcome::Unclear(_)) => reversal_item(book, later, *place, order),
        (Sent::Foreign, Outcome::Unclear(_) | Outcome::DayClosed) => {
            money_item(message, order, row)
        }
        _ => None,
    }
}
