//! Finds what later orders say about an order.
ghost use Rattle.std.specs.Prelude.{◌≡◌, ◌+◌, ◌<◌, ◌^◌, length};
ghost use Rattle.std.specs.List.{list_any, position};
ghost use Rattle.zvt_report.specs.Looks.{approves, confirmed_in, confirming, decides, decides_by, is_plain, may_pay};
ghost use Rattle.zvt_report.specs.Looks.{paid_again};

use crate::kinds::{OrderKind, kind_at};
use crate::rows::{OrderMessage, OrderRow};
use zvt_bcd::Amount;
use zvt_till::{Outcome, Sent};

/// The result code of a reversal if the terminal had reversed the payment before.
pub(crate) const ALREADY_REVERSED: u8 = 0xB4;

/// Whether this order is a payment of this amount that is booked or unclear.
fn may_pay(amount: Amount, row: &OrderRow) -> bool
    ensures { result ≡ may_pay amount row.now }
{
    match (&row.order, &row.outcome) {
        (Sent::Pay(own), Outcome::Paid { .. } | Outcome::Unclear(_)) => *own == amount,
        _ => false,
    }
}

/// Whether a reversal with this outcome changes the mark or the doubt of its entry.
fn decides_by(outcome: &Outcome) -> bool
    ensures { result ≡ decides_by outcome.now }
{
    match outcome {
        Outcome::Unclear(_) | Outcome::Reversed => true,
        Outcome::Refused(code) | Outcome::Aborted(code) => *code == ALREADY_REVERSED,
        _ => false,
    }
}

/// Whether this order is a reversal of the entry at this place that changes its mark or its doubt.
fn decides(place: usize, row: &OrderRow) -> bool
    ensures { result ≡ decides place row.now }
{
    match &row.order {
        Sent::Reverse(own) => *own == place && decides_by(&row.outcome),
        _ => false,
    }
}

/// Whether the terminal approved this amount in the order.
fn approves(amount: Amount, row: &OrderRow) -> bool
    ensures { result ≡ approves amount row.now }
{
    match &row.approval {
        Some(approval) => approval.amount == amount,
        None => false,
    }
}

/// Whether an order of this kind moves no money and ends no day.
fn is_plain(kind: OrderKind) -> bool
    ensures { result ≡ is_plain kind }
{
    match kind {
        OrderKind::Plain => true,
        OrderKind::Payment | OrderKind::Reversal | OrderKind::OtherMoney | OrderKind::Close => {
            false
        }
    }
}

/// Returns the place of the first of these orders with an approval of this amount, before the next one that moves money
/// or ends a day. The first order has this place.
fn confirmed_in(
    amount: Amount,
    messages: &[OrderMessage],
    place: usize,
    later: &[OrderRow],
) -> Option<usize>
    requires { place + length later.now < 2 ^ 64 }
    ensures { result ≡ confirmed_in amount messages.now place later.now }
{
    let mut at = place;
    let mut rest = later;
    'rows: while let [row, more @ ..] = rest {
        if !is_plain(kind_at(messages, at, row)) {
            return None;
        }
        if approves(amount, row) {
            return Some(at);
        }
        at += 1;
        rest = more;
    }
    None
}

/// Returns the place of the later order in which the terminal repeated the approval of a payment. The first later order
/// has this place.
pub(crate) fn confirming(
    order: &Sent,
    messages: &[OrderMessage],
    place: usize,
    later: &[OrderRow],
) -> Option<usize>
    requires { place + length later.now < 2 ^ 64 }
    ensures { result ≡ confirming order.now messages.now place later.now }
{
    match order {
        Sent::Pay(amount) => confirmed_in(*amount, messages, place, later),
        _ => None,
    }
}

/// Whether one of these orders is a reversal of the entry at this place that changes its mark or its doubt.
pub(crate) fn is_decided(place: usize, rows: &[OrderRow]) -> bool
    ensures { result ≡ list_any (decides place) rows.now }
{
    rows.iter().any(|row| decides(place, row))
}

/// Returns the index of the first of these orders that is a payment of this amount and is booked or unclear.
fn first_paid(amount: Amount, rows: &[OrderRow]) -> Option<usize>
    ensures { result ≡ position (may_pay amount) rows.now }
{
    rows.iter().position(|row| may_pay(amount, row))
}

/// Returns the place of the first later payment of the same amount that is booked or unclear. The first later order has
/// this place.
pub(crate) fn paid_again(order: &Sent, place: usize, later: &[OrderRow]) -> Option<usize>
    requires { place + length later.now < 2 ^ 64 }
    ensures { result ≡ paid_again order.now place later.now }
{
    let Sent::Pay(amount) = order else {
        return None;
    };
    let skipped = first_paid(*amount, later)?;
    Some(place + skipped)
}
