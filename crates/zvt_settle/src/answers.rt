//! Single messages, statuses and settlements, as a till that settles reads them.
ghost use Rattle.std.specs.Prelude.{◌≡◌, ◌∷◌, [], slice_get};
ghost use Rattle.std.specs.List.{list_any};
ghost use Rattle.zvt_till.specs.Outcomes.{trace_used};
ghost use Rattle.zvt_till.specs.Segments.{is_positive};
ghost use Rattle.zvt_settle.specs.Deciding.{did_not, taken_back};
ghost use Rattle.zvt_settle.specs.Settling.{answer_by, counts, opened_by};

use crate::deciding::{Settlement, StatusSoFar, What, reverses};
use zvt_bcd::{Currency, Trace};
use zvt_till::{Entry, Happening, Heard, Order, StatusFacts};

/// Returns whether this message accepts an order.
pub(crate) fn is_positive(heard: &Heard) -> bool
    ensures { result ≡ is_positive (Happening.Heard heard.now) }
{
    matches!(heard, Heard::Positive)
}

/// Returns what an unclear order leaves to settle. A payment stands at this index of the unclear payments.
pub(crate) fn opened_by(order: &Order, place: usize) -> Option<What>
    ensures { result ≡ opened_by order.now place }
{
    match order {
        Order::Pay(amount) => Some(What::Payment(place, *amount)),
        Order::Reverse(entry) => Some(What::Reversal(*entry)),
        _ => None,
    }
}

/// Returns the settlement of an order that did not happen.
pub(crate) fn did_not(what: &What) -> Settlement
    ensures { result ≡ did_not what.now }
{
    match what {
        What::Payment(row, _) => Settlement::NotPaid(*row),
        What::Reversal(entry) => Settlement::NotReversed(*entry),
    }
}

/// Returns the answer to an ask that this message ends.
pub(crate) fn answer_by(so_far: StatusSoFar, heard: &Heard) -> Option<StatusFacts>
    ensures { result ≡ answer_by so_far (Happening.Heard heard.now) }
{
    match heard {
        Heard::Completion => so_far.one(),
        _ => None,
    }
}

impl Settlement {
    ghost use Rattle.std.specs.Prelude.{◌≡◌};
    ghost use Rattle.zvt_settle.specs.Settling.{counts};

    /// Returns whether this counts a payment with this trace number.
    fn counts(&self, trace: Trace) -> bool
        ensures { result ≡ counts trace self.now }
    {
        match self {
            Settlement::Paid(_, own, _) => *own == trace,
            _ => false,
        }
    }
}

/// Returns the settlement of a reversal of this entry, if the status information reverses it.
#[tactic(auto, using(crate::proofs::Decisions::takes_back_one))]
pub(crate) fn taken_back(
    book: &[Entry],
    entry: usize,
    currency: Currency,
    status: &StatusFacts,
) -> Option<Settlement>
    ensures { result ≡ taken_back currency (status.now ∷ []) entry (slice_get book.now entry) }
{
    match book.get(entry) {
        None => None,
        Some(row) => {
            if reverses(row.amount, row.trace, currency, status) {
                Some(Settlement::Reversed(entry))
            } else {
                None
            }
        }
    }
}

/// Returns whether an entry has this trace number.
pub(crate) fn has_trace(book: &[Entry], trace: Trace) -> bool
    ensures { result ≡ trace_used trace book.now }
{
    book.iter().any(|entry| entry.trace == trace)
}

/// Returns whether a payment with this trace number was settled as paid.
pub(crate) fn has_counted(settled: &[Settlement], trace: Trace) -> bool
    ensures { result ≡ list_any (counts trace) settled.now }
{
    settled.iter().any(|settlement| settlement.counts(trace))
}
