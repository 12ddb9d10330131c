//! The meaning of one status information under an order, and of all of them together.
//!
//! The functions that judge a status are `#[inline(always)]`: an audit calls them for each status.
ghost use Rattle.std.specs.Prelude.{◌≡◌};
ghost use Rattle.std.specs.List.{list_all};
ghost use Rattle.zvt_bcd.specs.Digits.{is_digit_pair};
ghost use Rattle.zvt_till.specs.Statuses.{class_of, class_undeclined, class_unnamed, is_by_receipt, same_trace};
ghost use Rattle.zvt_till.specs.ByReceipt.{count_of, is_sole, has_unclear, sole_receipt};
ghost use Rattle.zvt_till.specs.Outcomes.{note, note_class, demand_of, listened};

use crate::entries::Entry;
use crate::happenings::{Happening, is_positive};
use crate::messages::{Heard, Original, StatusFacts};
use crate::orders::Order;
use crate::outcomes::Cause;
use crate::settings::Rules;
use zvt_bcd::{Amount, Currency, Trace, is_digits};

/// The amount and currency that a status information must confirm. It may omit the currency.
#[derive(Clone, Copy)]
pub struct Charge {
    pub amount: Amount,
    /// The currency in force, if any.
    pub currency: Option<Currency>,
}

impl Charge {
    ghost use Rattle.std.specs.Prelude.{◌≡◌};
    ghost use Rattle.zvt_till.specs.Statuses.{is_value};

    /// Returns whether this is the charged amount.
    fn is_amount(&self, named: Option<Amount>) -> bool
        ensures { result ≡ is_value named self.now.amount }
    {
        named == Some(self.amount)
    }
}

/// The values with which the status information of an order must agree.
#[derive(Clone, Copy)]
pub enum Demand {
    Payment(Charge),
    /// The trace number of the payment, and its receipt number if a status may leave the payment unnamed.
    Reversal(Charge, Trace, Option<[u8; 2]>),
    /// An end of day, which may be closed by its completion alone.
    Closing(bool),
}

/// The meaning of one status information under an order. `Good` has a trace number only for payments.
#[derive(Clone, Copy)]
pub enum Class {
    Good(Option<Trace>),
    Declining(u8),
    Doubtful(Cause),
}

/// The combined meaning of the status information of the running order: the first receipt number if all approve, the
/// first result code if all decline, otherwise the fault of the first that disagrees.
#[derive(Clone, Copy)]
pub enum Statuses {
    Nothing,
    Good(Option<Trace>, Option<[u8; 2]>),
    Declining(u8),
    Fault(Cause),
}

/// The running order: whether it had a positive answer, and the meaning of its statuses so far.
#[derive(Clone, Copy)]
pub struct Running {
    pub order: Order,
    pub positive: bool,
    pub statuses: Statuses,
}

/// Returns whether both are the same number, or both none.
#[inline(always)]
fn same_trace(one: &Option<Trace>, other: &Option<Trace>) -> bool
    ensures { result ≡ same_trace one.now other.now }
{
    one == other
}

/// Returns whether each byte is two digits.
fn are_digits(bytes: [u8; 2]) -> bool
    ensures { result ≡ list_all is_digit_pair bytes }
{
    is_digits(bytes.as_slice())
}

/// Returns whether the status names no payment and one receipt number, which is not the payment's own.
#[inline(always)]
fn is_by_receipt(sole: &Option<[u8; 2]>, original: &Original, receipt: &Option<[u8; 2]>) -> bool
    ensures { result ≡ is_by_receipt sole.now original.now receipt.now }
{
    let Some(own) = sole else {
        return false;
    };
    let Some(other) = receipt else {
        return false;
    };
    original.is_absent() && are_digits(*other) && *other != *own
}

/// Returns the class of a status that names one result, which is not a decline.
#[inline(always)]
fn class_undeclined(demand: &Demand, status: &StatusFacts) -> Class
    ensures { result ≡ class_undeclined demand.now status.now }
{
    match demand {
        Demand::Payment(charge) => {
            if !status.original.is_absent() {
                Class::Doubtful(Cause::Conflict)
            } else if !status.currency.is_in(charge.currency) {
                Class::Doubtful(Cause::WrongCurrency)
            } else if !charge.is_amount(status.amount) {
                Class::Doubtful(Cause::AmountDiffers)
            } else {
                match status.trace {
                    None => Class::Doubtful(Cause::NoTrace),
                    Some(trace) => Class::Good(Some(trace)),
                }
            }
        }
        Demand::Reversal(charge, trace, sole) => {
            if !status.currency.is_in(charge.currency) {
                Class::Doubtful(Cause::WrongCurrency)
            } else if !charge.is_amount(status.amount) {
                Class::Doubtful(Cause::AmountDiffers)
            } else if status.original.names(*trace)
                || is_by_receipt(sole, &status.original, &status.receipt)
            {
                Class::Good(None)
            } else {
                Class::Doubtful(Cause::NoTrace)
            }
        }
        Demand::Closing(_) => Class::Good(None),
    }
}

/// Returns the class of a status that does not name one result.
#[inline(always)]
fn class_unnamed(demand: &Demand, status: &StatusFacts) -> Class
    ensures { result ≡ class_unnamed demand.now status.now }
{
    match demand {
        Demand::Closing(true) if !status.has_result => Class::Good(None),
        _ => Class::Doubtful(Cause::Conflict),
    }
}

/// Returns the meaning of the status information under the order.
#[inline(always)]
fn class_of(demand: &Demand, status: &StatusFacts) -> Class
    ensures { result ≡ class_of demand.now status.now }
{
    match status.result {
        None => class_unnamed(demand, status),
        Some(0) => class_undeclined(demand, status),
        Some(code) => Class::Declining(code),
    }
}

/// Adds one status information of this class to the combined meaning.
#[inline(always)]
fn note_class(so_far: Statuses, class: Class, receipt: Option<[u8; 2]>) -> Statuses
    ensures { result ≡ note_class so_far class receipt }
{
    match so_far {
        Statuses::Nothing => match class {
            Class::Good(trace) => Statuses::Good(trace, receipt),
            Class::Declining(code) => Statuses::Declining(code),
            Class::Doubtful(cause) => Statuses::Fault(cause),
        },
        Statuses::Good(trace, first) => match class {
            Class::Good(next) => {
                if same_trace(&next, &trace) {
                    Statuses::Good(trace, first)
                } else {
                    Statuses::Fault(Cause::Conflict)
                }
            }
            Class::Declining(_) => Statuses::Fault(Cause::Conflict),
            Class::Doubtful(cause) => Statuses::Fault(cause),
        },
        Statuses::Declining(code) => match class {
            Class::Good(_) => Statuses::Fault(Cause::Conflict),
            Class::Declining(_) => Statuses::Declining(code),
            Class::Doubtful(cause) => Statuses::Fault(cause),
        },
        Statuses::Fault(cause) => Statuses::Fault(cause),
    }
}

/// Adds one status information to the combined meaning.
#[inline(always)]
pub(crate) fn note(demand: &Option<Demand>, so_far: Statuses, status: &StatusFacts) -> Statuses
    ensures { result ≡ note demand.now so_far status.now }
{
    match demand {
        None => so_far,
        Some(demand) => note_class(so_far, class_of(demand, status), status.receipt),
    }
}

/// Returns the number of entries with this amount.
fn count_of(amount: Amount, book: &[Entry]) -> usize
    ensures { result ≡ count_of amount book.now }
{
    let mut count = 0;
    'entries: for entry in book {
        if entry.amount == amount {
            count += 1;
        }
    }
    count
}

/// Returns whether an unclear payment has this amount.
fn has_unclear(amount: Amount, unclear: &[(Amount, Cause)]) -> bool
    ensures { result ≡ has_unclear amount unclear.now }
{
    unclear.iter().any(|row| row.0 == amount)
}

/// Returns whether one entry has this amount, and no unclear payment does.
fn is_sole(amount: Amount, book: &[Entry], unclear: &[(Amount, Cause)]) -> bool
    ensures { result ≡ is_sole amount book.now unclear.now }
{
    count_of(amount, book) == 1 && !has_unclear(amount, unclear)
}

/// Returns the entry's receipt number if the status of its reversal may leave the payment unnamed.
fn sole_receipt(
    by_receipt: bool,
    book: &[Entry],
    unclear: &[(Amount, Cause)],
    row: &Entry,
) -> Option<[u8; 2]>
    ensures { result ≡ sole_receipt by_receipt book.now unclear.now row.now }
{
    if by_receipt && is_sole(row.amount, book, unclear) {
        row.receipt
    } else {
        None
    }
}

/// Returns the values with which the order's statuses have to agree, given the rules, the currency in force, and the
/// booked and unclear payments. A registration demands nothing.
pub fn demand_of(
    rules: Rules,
    currency: Option<Currency>,
    book: &[Entry],
    unclear: &[(Amount, Cause)],
    order: &Order,
) -> Option<Demand>
    ensures { result ≡ demand_of rules currency book.now unclear.now order.now }
{
    match order {
        Order::Register | Order::Cancel => None,
        Order::Pay(amount) => Some(Demand::Payment(Charge {
            amount: *amount,
            currency,
        })),
        Order::Reverse(entry) => {
            let row = book.get(*entry)?;
            let amount = row.amount;
            let sole = sole_receipt(rules.reversal_by_receipt, book, unclear, row);
            Some(Demand::Reversal(Charge { amount, currency }, row.trace, sole))
        }
        Order::CloseDay => Some(Demand::Closing(rules.close_by_completion)),
    }
}

/// Returns the running order after an event that does not end it.
pub fn listened(demand: &Option<Demand>, running: &Running, happening: &Happening) -> Running
    ensures { result ≡ listened demand.now running.now happening.now }
{
    let statuses = match happening {
        Happening::Heard(Heard::Status(status)) => note(demand, running.statuses, status),
        _ => running.statuses,
    };
    Running {
        order: running.order,
        positive: running.positive || is_positive(happening),
        statuses,
    }
}
