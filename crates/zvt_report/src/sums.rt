//! The sums of a day, in the smallest unit of the currency.
ghost use Rattle.std.specs.Prelude.{◌≡◌, cond};
ghost use Rattle.zvt_till.specs.Doubts.{is_unclear};
ghost use Rattle.zvt_till.specs.Marks.{total};
ghost use Rattle.zvt_report.specs.Laws.{booked_total, taken_back};
ghost use Rattle.zvt_report.specs.Sums.{reversed_count, unclear_reversals, unclear_total};

use zvt_bcd::Amount;
use zvt_till::{Cause, Doubt, Entry};

/// Returns the sum of all entries.
pub(crate) fn booked_total(book: &[Entry]) -> u128
    ensures { result ≡ booked_total book.now }
{
    let mut total = 0;
    for entry in book {
        total += u128::from(entry.amount.get());
    }
    total
}

/// Returns the sum of the entries that were taken back.
pub(crate) fn taken_back(book: &[Entry]) -> u128
    ensures { result ≡ taken_back book.now }
{
    let mut total = 0;
    for entry in book {
        if entry.reversed {
            total += u128::from(entry.amount.get());
        }
    }
    total
}

/// Returns the sum of the entries that were not taken back.
pub(crate) fn net_total(book: &[Entry]) -> u128
    ensures { result ≡ total book.now }
{
    let mut total = 0;
    for entry in book {
        if !entry.reversed {
            total += u128::from(entry.amount.get());
        }
    }
    total
}

/// Returns the sum of the unclear payments.
pub(crate) fn unclear_total(unclear: &[(Amount, Cause)]) -> u128
    ensures { result ≡ unclear_total unclear.now }
{
    let mut total = 0;
    for (amount, _) in unclear {
        total += u128::from(amount.get());
    }
    total
}

/// Returns the number of entries that were taken back.
pub(crate) fn reversed_count(book: &[Entry]) -> usize
    ensures { result ≡ reversed_count book.now }
{
    let mut count = 0;
    for entry in book {
        if entry.reversed {
            count += 1;
        }
    }
    count
}

/// Whether the reversal of this entry is unclear.
fn is_unclear(entry: &Entry) -> bool
    ensures { result ≡ is_unclear entry.now }
{
    matches!(entry.doubt, Doubt::Unclear(_))
}

/// Returns the number of entries whose reversal is unclear.
pub(crate) fn unclear_reversals(book: &[Entry]) -> usize
    ensures { result ≡ unclear_reversals book.now }
{
    let mut count = 0;
    for entry in book {
        if is_unclear(entry) {
            count += 1;
        }
    }
    count
}
