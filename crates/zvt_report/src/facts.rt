//! What the sentences about a look say.
ghost use Rattle.std.specs.Prelude.{◌≡◌};
ghost use Rattle.std.specs.List.{position};
ghost use Rattle.zvt_report.specs.Facts.{asks_again, counted_at, counts, entry_of, facts_of, facts_with, is_greater};
ghost use Rattle.zvt_report.specs.Facts.{maybe_row, names_order, one_share, repeats_receipt, row_at, share_at};
ghost use Rattle.zvt_report.specs.Facts.{share_name, share_of, shares_in, shares_of, three_shares, two_shares, widens};

use crate::cases::Look;
use crate::closings::Closing;
use crate::differing::closing_at;
use crate::explaining::{Explained, OpenItem, open_item};
use crate::objects::message_at;
use crate::rows::{OrderMessage, OrderRow};
use zvt_bcd::Trace;
use zvt_till::{Entry, Sent};

/// What an order is called that explains a difference.
#[derive(Clone, Copy)]
pub(crate) enum ShareName {
    /// An unclear payment.
    Payment,
    /// An unclear reversal.
    Reversal,
    Refund,
    /// Another order that moves money.
    Order,
}

/// What an order adds to the terminal's total, or takes from it, without a change of the book.
#[derive(Clone, Copy)]
pub(crate) struct Share {
    pub(crate) name: ShareName,
    pub(crate) amount: u64,
    /// The first line of the order.
    pub(crate) line: u64,
    pub(crate) adds: bool,
}

/// The orders that make up a difference. The first one widens it.
#[derive(Clone, Copy)]
pub(crate) enum Shares {
    Nothing,
    One(Share),
    Two(Share, Share),
    Three(Share, Share, Share),
}

/// What the sentences about a look say.
#[derive(Clone, Copy)]
pub(crate) struct Facts {
    pub(crate) row: OrderRow,
    pub(crate) message: OrderMessage,
    /// The payment that a reversal takes back.
    pub(crate) entry: Option<Entry>,
    /// The other payment of the case.
    pub(crate) again: Option<OrderRow>,
    /// The later order in which the terminal repeated the approval.
    pub(crate) confirmed: Option<OrderRow>,
    /// Whether that order asks for the last receipt once more.
    pub(crate) asked_again: bool,
    /// The trace number of the status information that took the approval back.
    pub(crate) undone_by: Option<Trace>,
    /// The first line of the end of day that counts the payment.
    pub(crate) counted: Option<u64>,
    /// The end of day, if the order closed a day.
    pub(crate) closing: Option<Closing>,
    /// What explains that its total differs from the book.
    pub(crate) shares: Shares,
}

/// Returns the payment that a reversal takes back.
fn entry_of(book: &[Entry], order: &Sent) -> Option<Entry>
    ensures { result ≡ entry_of book.now order.now }
{
    match order {
        Sent::Reverse(place) => book.get(*place).copied(),
        _ => None,
    }
}

/// Returns the order at this place.
fn row_at(rows: &[OrderRow], place: usize) -> Option<OrderRow>
    ensures { result ≡ row_at rows.now place }
{
    rows.get(place).copied()
}

/// Returns the order at this place, if there is one.
fn maybe_row(rows: &[OrderRow], place: Option<usize>) -> Option<OrderRow>
    ensures { result ≡ maybe_row rows.now place }
{
    row_at(rows, place?)
}

/// Returns what an order is called that explains a difference.
fn share_name(order: &Sent, low: u8) -> ShareName
    ensures { result ≡ share_name order.now low }
{
    match order {
        Sent::Pay(_) => ShareName::Payment,
        Sent::Reverse(_) => ShareName::Reversal,
        Sent::Foreign if low == 0x31 => ShareName::Refund,
        _ => ShareName::Order,
    }
}

/// Returns the share of this order, whose item is known.
fn share_of(message: &OrderMessage, row: &OrderRow, item: OpenItem) -> Share
    ensures { result ≡ share_of message.now row.now item }
{
    Share {
        name: share_name(&row.order, message.low),
        amount: item.amount,
        line: row.first,
        adds: item.adds,
    }
}

/// Returns what the order at this place adds to the terminal's total, or takes from it.
fn share_at(
    book: &[Entry],
    messages: &[OrderMessage],
    rows: &[OrderRow],
    place: usize,
) -> Option<Share>
    ensures { result ≡ share_at book.now messages.now rows.now place }
{
    let row = rows.get(place)?;
    let message = message_at(messages, place);
    let item = open_item(book, &message, place, row, &[])?;
    Some(share_of(&message, row, item))
}

/// Whether a share changes the terminal's total in the direction in which it differs from the book.
fn widens(greater: bool, share: &Share) -> bool
    ensures { result ≡ widens greater share.now }
{
    if greater { share.adds } else { !share.adds }
}

/// Returns the only share of a difference.
fn one_share(a: Option<Share>) -> Shares
    ensures { result ≡ one_share a }
{
    match a {
        Some(a) => Shares::One(a),
        None => Shares::Nothing,
    }
}

/// Returns both shares of a difference, first the one that widens it.
fn two_shares(greater: bool, a: Option<Share>, b: Option<Share>) -> Shares
    ensures { result ≡ two_shares greater a b }
{
    match (a, b) {
        (Some(a), Some(b)) => {
            if widens(greater, &a) {
                Shares::Two(a, b)
            } else {
                Shares::Two(b, a)
            }
        }
        _ => Shares::Nothing,
    }
}

/// Returns the three shares of a difference, first one that widens it.
fn three_shares(greater: bool, a: Option<Share>, b: Option<Share>, c: Option<Share>) -> Shares
    ensures { result ≡ three_shares greater a b c }
{
    match (a, b, c) {
        (Some(a), Some(b), Some(c)) => {
            if widens(greater, &a) {
                Shares::Three(a, b, c)
            } else if widens(greater, &b) {
                Shares::Three(b, a, c)
            } else {
                Shares::Three(c, a, b)
            }
        }
        _ => Shares::Nothing,
    }
}

/// Returns the shares of these orders.
fn shares_of(
    book: &[Entry],
    messages: &[OrderMessage],
    rows: &[OrderRow],
    greater: bool,
    orders: Explained,
) -> Shares
    ensures { result ≡ shares_of book.now messages.now rows.now greater orders }
{
    match orders {
        Explained::Nothing | Explained::Empty | Explained::Several => Shares::Nothing,
        Explained::One(a) => one_share(share_at(book, messages, rows, a)),
        Explained::Two(a, b) => {
            let a = share_at(book, messages, rows, a);
            two_shares(greater, a, share_at(book, messages, rows, b))
        }
        Explained::Three(a, b, c) => {
            let a = share_at(book, messages, rows, a);
            let b = share_at(book, messages, rows, b);
            three_shares(greater, a, b, share_at(book, messages, rows, c))
        }
    }
}

/// Whether the terminal's total is greater than the book.
fn is_greater(closing: &Closing) -> bool
    ensures { result ≡ is_greater closing.now }
{
    match closing.covered {
        Some(covered) => closing.booked <= covered,
        None => false,
    }
}

/// Returns what explains that the total of an end of day differs from the book.
fn shares_in(
    book: &[Entry],
    messages: &[OrderMessage],
    rows: &[OrderRow],
    closing: &Option<Closing>,
) -> Shares
    ensures { result ≡ shares_in book.now messages.now rows.now closing.now }
{
    match closing {
        Some(closing) => shares_of(book, messages, rows, is_greater(closing), closing.explained),
        None => Shares::Nothing,
    }
}

/// Whether the order at this place is one of these.
fn names_order(place: usize, orders: Explained) -> bool
    ensures { result ≡ names_order place orders }
{
    match orders {
        Explained::Nothing | Explained::Empty | Explained::Several => false,
        Explained::One(a) => a == place,
        Explained::Two(a, b) => a == place || b == place,
        Explained::Three(a, b, c) => a == place || (b == place || c == place),
    }
}

/// Whether the order at this place explains the total of this end of day.
fn counts(place: usize, closing: &Option<Closing>) -> bool
    ensures { result ≡ counts place closing.now }
{
    match closing {
        Some(closing) => names_order(place, closing.explained),
        None => false,
    }
}

/// Returns the index of the end of day whose total the order at this place explains.
fn counting(closings: &[Option<Closing>], place: usize) -> Option<usize>
    ensures { result ≡ position (counts place) closings.now }
{
    closings.iter().position(|closing| counts(place, closing))
}

/// Returns the first line of the end of day whose total the order at this place explains.
fn counted_at(closings: &[Option<Closing>], rows: &[OrderRow], place: usize) -> Option<u64>
    ensures { result ≡ counted_at closings.now rows.now place }
{
    match maybe_row(rows, counting(closings, place)) {
        Some(row) => Some(row.first),
        None => None,
    }
}

/// Whether an order asks for the last receipt once more.
fn repeats_receipt(message: &OrderMessage) -> bool
    ensures { result ≡ repeats_receipt message.now }
{
    message.high == 0x06 && message.low == 0x20
}

/// Whether the order at this place asks for the last receipt once more.
fn asks_again(messages: &[OrderMessage], place: Option<usize>) -> bool
    ensures { result ≡ asks_again messages.now place }
{
    match place {
        Some(place) => repeats_receipt(&message_at(messages, place)),
        None => false,
    }
}

/// Returns what the sentences about a look at this order say.
fn facts_with(
    book: &[Entry],
    closings: &[Option<Closing>],
    messages: &[OrderMessage],
    rows: &[OrderRow],
    look: &Look,
    row: OrderRow,
) -> Facts
    ensures { result ≡ facts_with book.now closings.now messages.now rows.now look.now row }
{
    let closing = closing_at(closings, look.order);
    Facts {
        row,
        message: message_at(messages, look.order),
        entry: entry_of(book, &row.order),
        again: maybe_row(rows, look.again),
        confirmed: maybe_row(rows, look.confirmed_by),
        asked_again: asks_again(messages, look.confirmed_by),
        undone_by: look.undone_by,
        counted: counted_at(closings, rows, look.order),
        closing,
        shares: shares_in(book, messages, rows, &closing),
    }
}

/// Returns what the sentences about a look say.
pub(crate) fn facts_of(
    book: &[Entry],
    closings: &[Option<Closing>],
    messages: &[OrderMessage],
    rows: &[OrderRow],
    look: &Look,
) -> Option<Facts>
    ensures { result ≡ facts_of book.now closings.now messages.now rows.now look.now }
{
    let row = row_at(rows, look.order)?;
    Some(facts_with(book, closings, messages, rows, look, row))
}
