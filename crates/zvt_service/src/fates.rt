//! What is known of an order: how it ended, and what an ask of the till settled later.
ghost use Rattle.std.specs.Prelude.{◌≡◌, find, length, option_copied};
ghost use Rattle.std.specs.List.{before_first};
ghost use Rattle.zvt_kept.specs.PastOrders.{is_noted_as};
ghost use Rattle.zvt_service.specs.Fates.{is_about, is_unclear_payment, row_of, unclear_payments, verdict_in};
ghost use Rattle.zvt_service.specs.Fates.{verdict_of};

use zvt_bcd::Trace;
use zvt_kept::PastOrder;
use zvt_settle::Settlement;
use zvt_till::{Order, Outcome};

/// What an ask settled about an unclear payment.
#[derive(Clone, Copy, Debug, PartialEq, Eq)]
pub enum Verdict {
    /// The payment happened, with this trace number, and this receipt number if there is one.
    Paid {
        trace: Trace,
        receipt: Option<[u8; 2]>,
    },
    /// The payment did not happen.
    NotPaid,
}

/// What is known of an order.
#[derive(Clone, Copy, Debug, PartialEq, Eq)]
pub enum Fate {
    Running,
    Ended(Outcome),
    /// It is a payment that ended as unclear, and that an ask settled.
    Settled(Verdict),
}

impl Fate {
    ghost use Rattle.std.specs.Prelude.{None};
    ghost use Rattle.zvt_service.specs.Fates.{fate_as, fate_of};

    /// Returns what a book says about its order with this key: `past`, which is one of its orders. `settled` is what the
    /// asks of its till have settled.
    pub(crate) fn of(
        past: &PastOrder,
        key: &[u8],
        orders: &[PastOrder],
        settled: &[Settlement],
    ) -> Fate
        ensures { result ≡ fate_of key.now orders.now settled.now past.now }
    {
        let verdict = if is_unclear_payment(past) {
            verdict_in(settled, row_of(orders, key))
        } else {
            None
        };
        match verdict {
            Some(verdict) => Fate::Settled(verdict),
            None => Fate::unsettled(past.outcome),
        }
    }

    /// Returns what is known of an order that ended like this, or is running, if nothing was settled about it.
    pub fn unsettled(outcome: Option<Outcome>) -> Fate
        ensures { result ≡ fate_as None outcome }
    {
        match outcome {
            Some(outcome) => Fate::Ended(outcome),
            None => Fate::Running,
        }
    }
}

/// Returns whether an order is a payment that ended as unclear.
fn is_unclear_payment(past: &PastOrder) -> bool
    ensures { result ≡ is_unclear_payment past.now }
{
    matches!(past.order, Order::Pay(_)) && matches!(past.outcome, Some(Outcome::Unclear(_)))
}

/// Returns the index among the till's unclear payments of the first order with this key, if it is one: the number of
/// unclear payments before it.
fn row_of(orders: &[PastOrder], key: &[u8]) -> usize
    ensures { result ≡ row_of key.now orders.now }
{
    unclear_payments(orders_before(orders, key))
}

/// Returns the orders before the first one with this key.
fn orders_before<'s>(orders: &'s [PastOrder], key: &[u8]) -> &'s [PastOrder]
    ensures { result.now ≡ before_first (is_noted_as key.now) orders.now }
{
    &orders[..count_before(orders, key)]
}

fn count_before(orders: &[PastOrder], key: &[u8]) -> usize
    ensures { result ≡ length (before_first (is_noted_as key.now) orders.now) }
{
    orders
        .iter()
        .take_while(|past| !past.note.has_reference(key))
        .count()
}

/// Returns the number of these orders that are unclear payments.
fn unclear_payments(orders: &[PastOrder]) -> usize
    ensures { result ≡ unclear_payments orders.now }
{
    orders
        .iter()
        .filter(|past| is_unclear_payment(past))
        .count()
}

/// Returns what was settled about the unclear payment at this index.
fn verdict_in(settled: &[Settlement], row: usize) -> Option<Verdict>
    ensures { result ≡ verdict_in row settled.now }
{
    match settlement_of(settled, row) {
        Some(settlement) => verdict_of(settlement),
        None => None,
    }
}

/// Returns the settlement that is about the unclear payment at this index.
fn settlement_of(settled: &[Settlement], row: usize) -> Option<&Settlement>
    ensures { option_copied result ≡ find (is_about row) settled.now }
{
    settled.iter().find(|settlement| is_about(settlement, row))
}

/// Returns whether a settlement is about the unclear payment at this index.
fn is_about(settlement: &Settlement, row: usize) -> bool
    ensures { result ≡ is_about row settlement.now }
{
    match settlement {
        Settlement::Paid(at, _, _) => *at == row,
        Settlement::NotPaid(at) => *at == row,
        Settlement::Reversed(_) | Settlement::NotReversed(_) => false,
    }
}

/// Returns what a settlement says about a payment, if it is about one.
fn verdict_of(settlement: &Settlement) -> Option<Verdict>
    ensures { result ≡ verdict_of settlement.now }
{
    match settlement {
        Settlement::Paid(_, trace, receipt) => Some(Verdict::Paid {
            trace: *trace,
            receipt: *receipt,
        }),
        Settlement::NotPaid(_) => Some(Verdict::NotPaid),
        Settlement::Reversed(_) | Settlement::NotReversed(_) => None,
    }
}
