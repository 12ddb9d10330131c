//! What an answer of the terminal decides.
ghost use Rattle.std.specs.Prelude.{◌≡◌};
ghost use Rattle.zvt_settle.specs.Deciding.{same, same_flags, same_original, same_currency};
ghost use Rattle.zvt_settle.specs.Deciding.{approved_as, reverses_as};

use zvt_bcd::{Amount, Currency, Trace};
use zvt_till::{CurrencyFact, Original, StatusFacts};

/// An order that may have happened or not.
#[derive(Clone, Copy, Debug, PartialEq, Eq)]
pub enum What {
    /// The payment at this index of the till's unclear payments, and its amount.
    Payment(usize, Amount),
    /// A reversal of the entry at this index of the book.
    Reversal(usize),
}

/// An unclear order that an answer can settle.
#[derive(Clone, Copy, Debug, PartialEq, Eq)]
pub struct Pending {
    pub what: What,
    /// The status of the terminal's last transaction before the order.
    pub before: StatusFacts,
}

/// What became of an unclear order.
#[derive(Clone, Copy, Debug, PartialEq, Eq)]
pub enum Settlement {
    /// The payment at this index of the unclear payments happened: its trace number, and its receipt number if there is
    /// one.
    Paid(usize, Trace, Option<[u8; 2]>),
    /// The payment at this index of the unclear payments did not happen.
    NotPaid(usize),
    /// The unclear reversal of the entry at this index of the book happened.
    Reversed(usize),
    /// The unclear reversal of the entry at this index of the book did not happen.
    NotReversed(usize),
}

impl Settlement {
    ghost use Rattle.std.specs.Prelude.{◌≡◌};
    ghost use Rattle.zvt_settle.specs.Names.{settlement_name, settlement_words};

    /// Returns the name of the settlement as every output writes it.
    pub fn name(self) -> &'static str
        ensures { result.now ≡ settlement_name self }
    {
        match self {
            Settlement::Paid(..) => "Paid",
            Settlement::NotPaid(_) => "NotPaid",
            Settlement::Reversed(_) => "Reversed",
            Settlement::NotReversed(_) => "NotReversed",
        }
    }

    /// Returns a sentence that says what became of the order.
    pub fn words(self) -> &'static str
        ensures { result.now ≡ settlement_words self }
    {
        match self {
            Settlement::Paid(..) => "the terminal took the payment",
            Settlement::NotPaid(_) => "the terminal did not take the payment",
            Settlement::Reversed(_) => "the terminal reversed the payment",
            Settlement::NotReversed(_) => "the terminal did not reverse the payment",
        }
    }
}

/// The status informations since the last order or ask.
#[derive(Clone, Copy, Debug, PartialEq, Eq)]
pub enum StatusSoFar {
    Nothing,
    /// One or more, all with these values.
    One(StatusFacts),
    /// Several that differ.
    Mixed,
}

/// Returns whether two flags are the same.
fn is_same_flag(a: bool, b: bool) -> bool
    ensures { result ≡ same_flags a b }
{
    if a { b } else { !b }
}

/// Returns whether two status informations name the same reversed payment.
fn is_same_original(a: &Original, b: &Original) -> bool
    ensures { result ≡ same_original a.now b.now }
{
    match a {
        Original::Absent => matches!(b, Original::Absent),
        Original::Once(x) => match b {
            Original::Once(y) => x[0] == y[0] && x[1] == y[1] && x[2] == y[2],
            _ => false,
        },
        Original::Many => matches!(b, Original::Many),
    }
}

/// Returns whether two status informations name the same currency.
fn is_same_currency(a: &CurrencyFact, b: &CurrencyFact) -> bool
    ensures { result ≡ same_currency a.now b.now }
{
    match a {
        CurrencyFact::Absent => matches!(b, CurrencyFact::Absent),
        CurrencyFact::Once(x) => match b {
            CurrencyFact::Once(y) => *x == *y,
            _ => false,
        },
        CurrencyFact::Many => matches!(b, CurrencyFact::Many),
    }
}

/// Returns whether two status informations have the same values.
pub(crate) fn is_same(a: &StatusFacts, b: &StatusFacts) -> bool
    ensures { result ≡ same a.now b.now }
{
    a.result == b.result
        && is_same_flag(a.has_result, b.has_result)
        && a.amount == b.amount
        && a.trace == b.trace
        && a.receipt == b.receipt
        && is_same_original(&a.original, &b.original)
        && is_same_currency(&a.currency, &b.currency)
}

impl StatusSoFar {
    ghost use Rattle.std.specs.Prelude.{◌≡◌};
    ghost use Rattle.zvt_settle.specs.Deciding.{status_after, one_status};

    /// Adds a status information.
    pub(crate) fn after(self, status: &StatusFacts) -> StatusSoFar
        ensures { result ≡ status_after self status.now }
    {
        match self {
            StatusSoFar::Nothing => StatusSoFar::One(*status),
            StatusSoFar::One(first) => {
                if is_same(&first, status) {
                    StatusSoFar::One(first)
                } else {
                    StatusSoFar::Mixed
                }
            }
            StatusSoFar::Mixed => StatusSoFar::Mixed,
        }
    }

    /// Returns the one status information, if it names a trace number. Without a number it could belong to any
    /// transaction.
    pub(crate) fn one(self) -> Option<StatusFacts>
        ensures { result ≡ one_status self }
    {
        match self {
            StatusSoFar::One(status) => {
                if status.trace.is_some() {
                    Some(status)
                } else {
                    None
                }
            }
            _ => None,
        }
    }
}

/// Returns the trace number under which this status information approves a payment of the amount, if it does.
pub(crate) fn approved_as(amount: Amount, currency: Currency, status: &StatusFacts) -> Option<Trace>
    ensures { result ≡ approved_as currency amount status.now }
{
    let approves = status.result == Some(0)
        && status.original.is_absent()
        && status.currency.is_in(Some(currency))
        && status.amount == Some(amount);
    if approves { status.trace } else { None }
}

/// Returns whether this status information reverses the payment with this amount and trace number.
pub(crate) fn reverses(
    amount: Amount,
    trace: Trace,
    currency: Currency,
    status: &StatusFacts,
) -> bool
    ensures { result ≡ reverses_as currency amount trace status.now }
{
    status.result == Some(0)
        && status.currency.is_in(Some(currency))
        && status.amount == Some(amount)
        && status.original.names(trace)
}
