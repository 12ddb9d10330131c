//! Writes the parts of sentences about an approval that was repeated or taken back, and about an end of day that
//! counts a payment.
ghost use Rattle.std.specs.Prelude.{◌≡◌, ◌++◌, OnOk};
ghost use Rattle.zvt_report.specs.Phrases.{asking, confirmed_by, confirmed_part, counted_as_paid, of_amount};
ghost use Rattle.zvt_report.specs.Phrases.{receipt_of, under_trace, unless_earlier};

use crate::amounts::amount;
use crate::columns::zeros;
use crate::currencies::Decimals;
use crate::phrases::{amount_or_dash, approval_part};
use crate::rows::OrderRow;
use std::alloc::AllocError;
use zvt_bcd::{Amount, Trace};
use zvt_text::{Text, hexadecimal};

/// Writes that the end of day with this line counts a payment, if there is one.
#[tactic(auto, unfolding(crate::specs::Phrases::counted_as_paid))]
pub(crate) fn counted_as_paid(text: &mut Text, line: Option<u64>) -> Result<(), AllocError>
    ensures { OnOk result (text.new ≡ text.old ++ counted_as_paid line) }
{
    match line {
        Some(line) => {
            text.word(b" The end of day (line ")?;
            text.number(line)?;
            text.word(b") counts it as paid.")
        }
        None => Ok(()),
    }
}

/// Returns what the till did before the terminal repeated an approval, up to the line of it.
fn asking(again: bool) -> &'static [u8]
    ensures { result.now ≡ asking again }
{
    if again {
        b". The till then asked the terminal to repeat its last receipt (line "
    } else {
        b". The till then sent an order that moves no money (line "
    }
}

/// Writes in which order the terminal repeated an approval.
#[tactic(auto, unfolding(crate::specs::Phrases::confirmed_by))]
fn confirmed_by(
    text: &mut Text,
    decimals: Decimals,
    amount: &Option<Amount>,
    asked_again: bool,
    row: &OrderRow,
) -> Result<(), AllocError>
    ensures { OnOk result (text.new ≡ text.old ++ confirmed_by decimals amount.now asked_again row.now) }
{
    text.word(asking(asked_again))?;
    text.number(row.first)?;
    text.word(b"), and the answer approves ")?;
    amount_or_dash(text, decimals, amount)?;
    approval_part(text, &row.approval)
}

/// Writes in which order the terminal repeated an approval, if it did.
#[tactic(auto, unfolding(crate::specs::Phrases::confirmed_part))]
pub(crate) fn confirmed_part(
    text: &mut Text,
    decimals: Decimals,
    amount: &Option<Amount>,
    asked_again: bool,
    row: &Option<OrderRow>,
) -> Result<(), AllocError>
    ensures { OnOk result (text.new ≡ text.old ++ confirmed_part decimals amount.now asked_again row.now) }
{
    match row {
        Some(row) => confirmed_by(text, decimals, amount, asked_again, row),
        None => Ok(()),
    }
}

/// Returns the receipt number of the approval in an order.
pub(crate) fn receipt_of(row: &Option<OrderRow>) -> Option<[u8; 2]>
    ensures { result ≡ receipt_of row.now }
{
    match row {
        Some(row) => match &row.approval {
            Some(approval) => approval.receipt,
            None => None,
        },
        None => None,
    }
}

/// Writes the condition that no earlier payment has the receipt.
pub(crate) fn unless_earlier(text: &mut Text, receipt: &Option<[u8; 2]>) -> Result<(), AllocError>
    ensures { OnOk result (text.new ≡ text.old ++ unless_earlier receipt.now) }
{
    match receipt {
        Some(receipt) => {
            text.word(b"If no earlier payment has receipt ")?;
            hexadecimal(text, receipt)
        }
        None => text.word(b"If no earlier payment has this receipt"),
    }
}

/// Writes the trace number of what took an approval back, if there is one.
pub(crate) fn under_trace(text: &mut Text, trace: &Option<Trace>) -> Result<(), AllocError>
    ensures { OnOk result (text.new ≡ text.old ++ under_trace trace.now) }
{
    match trace {
        Some(trace) => {
            text.word(b" under trace ")?;
            zeros(text, 6, u128::from(trace.get()))
        }
        None => Ok(()),
    }
}

/// Writes the amount of an order, if it is known.
pub(crate) fn of_amount(
    text: &mut Text,
    decimals: Decimals,
    given: &Option<Amount>,
) -> Result<(), AllocError>
    ensures { OnOk result (text.new ≡ text.old ++ of_amount decimals given.now) }
{
    match given {
        Some(given) => {
            text.word(b" of ")?;
            amount(text, decimals, u128::from(given.get()))
        }
        None => Ok(()),
    }
}
