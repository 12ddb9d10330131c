//! Writes the parts of sentences about an order.
ghost use Rattle.std.specs.Prelude.{◌≡◌, ◌++◌, OnOk, option_map};
ghost use Rattle.zvt_till.specs.declared.entries.Entry.{Entry};
ghost use Rattle.zvt_report.specs.Phrases.{again_part, amount_of, amount_or_dash, approval_part};
ghost use Rattle.zvt_report.specs.Phrases.{approved_receipt, counted_part, entry_part, likeness, maybe_payment_at};
ghost use Rattle.zvt_report.specs.Phrases.{numbers_part, own_receipt, paid_again_by, paid_numbers, payment_at};
ghost use Rattle.zvt_report.specs.Phrases.{payment_name, reason, receipt_name, receipt_part, total_part, trace_part};
ghost use Rattle.zvt_report.specs.Phrases.{twice_part};

use crate::amounts::amount;
use crate::apart::{apart_part, card_part};
use crate::columns::zeros;
use crate::currencies::Decimals;
use crate::parts::receipt_by;
use crate::rows::{Approval, OrderRow};
use std::alloc::AllocError;
use zvt_bcd::{Amount, Trace};
use zvt_text::{Text, hexadecimal, result_words};
use zvt_till::{Entry, Outcome, Sent};

/// Returns the amount of an entry, if there is one.
fn entry_amount(entry: &Option<Entry>) -> Option<Amount>
    ensures { result ≡ option_map (λ (paid : Entry). paid.amount) entry.now }
{
    match entry {
        Some(paid) => Some(paid.amount),
        None => None,
    }
}

/// Returns the amount of a payment, or of the payment that a reversal takes back.
pub(crate) fn amount_of(entry: &Option<Entry>, order: &Sent) -> Option<Amount>
    ensures { result ≡ amount_of entry.now order.now }
{
    match order {
        Sent::Pay(amount) => Some(*amount),
        Sent::Reverse(_) => entry_amount(entry),
        _ => None,
    }
}

/// Writes an amount, or a dash if there is none.
#[tactic(auto, unfolding(crate::specs::Phrases::amount_or_dash))]
pub(crate) fn amount_or_dash(
    text: &mut Text,
    decimals: Decimals,
    given: &Option<Amount>,
) -> Result<(), AllocError>
    ensures { OnOk result (text.new ≡ text.old ++ amount_or_dash decimals given.now) }
{
    match given {
        Some(given) => amount(text, decimals, u128::from(given.get())),
        None => text.push(b'-'),
    }
}

/// Writes an amount between two texts.
pub(crate) fn phrase(
    text: &mut Text,
    decimals: Decimals,
    before: &[u8],
    given: &Option<Amount>,
    after: &[u8],
) -> Result<(), AllocError>
    ensures { OnOk result (text.new ≡ text.old ++ (before.now
        ++ amount_or_dash decimals given.now ++ after.now)) }
{
    text.word(before)?;
    amount_or_dash(text, decimals, given)?;
    text.word(after)
}

/// Writes a trace number after a comma, if there is one.
pub(crate) fn trace_part(text: &mut Text, trace: &Option<Trace>) -> Result<(), AllocError>
    ensures { OnOk result (text.new ≡ text.old ++ trace_part trace.now) }
{
    match trace {
        Some(trace) => {
            text.word(b", trace ")?;
            zeros(text, 6, u128::from(trace.get()))
        }
        None => Ok(()),
    }
}

/// Writes a receipt number after a comma, if there is one.
fn receipt_part(text: &mut Text, receipt: &Option<[u8; 2]>) -> Result<(), AllocError>
    ensures { OnOk result (text.new ≡ text.old ++ receipt_part receipt.now) }
{
    match receipt {
        Some(receipt) => {
            text.word(b", receipt ")?;
            hexadecimal(text, receipt)
        }
        None => Ok(()),
    }
}

/// Writes in parentheses a line and the numbers that stand there.
fn numbers_part(
    text: &mut Text,
    line: u64,
    trace: &Option<Trace>,
    receipt: &Option<[u8; 2]>,
) -> Result<(), AllocError>
    ensures { OnOk result (text.new ≡ text.old ++ numbers_part line trace.now receipt.now) }
{
    text.word(b" (line ")?;
    text.number(line)?;
    trace_part(text, trace)?;
    receipt_part(text, receipt)?;
    text.push(b')')
}

/// Writes in parentheses the line and the numbers of an approval.
#[tactic(auto, unfolding(crate::specs::Phrases::approval_part))]
pub(crate) fn approval_part(text: &mut Text, approval: &Option<Approval>) -> Result<(), AllocError>
    ensures { OnOk result (text.new ≡ text.old ++ approval_part approval.now) }
{
    match approval {
        Some(approval) => { numbers_part(text, approval.line, &approval.trace, &approval.receipt) }
        None => Ok(()),
    }
}

/// Writes the receipt number of a payment to look for.
pub(crate) fn receipt_name(text: &mut Text, receipt: &Option<[u8; 2]>) -> Result<(), AllocError>
    ensures { OnOk result (text.new ≡ text.old ++ receipt_name receipt.now) }
{
    match receipt {
        Some(receipt) => {
            text.word(b"receipt ")?;
            hexadecimal(text, receipt)
        }
        None => text.word(b"this payment"),
    }
}

/// Writes the receipt number of a payment, or that it is one.
pub(crate) fn payment_name(text: &mut Text, receipt: &Option<[u8; 2]>) -> Result<(), AllocError>
    ensures { OnOk result (text.new ≡ text.old ++ payment_name receipt.now) }
{
    match receipt {
        Some(receipt) => {
            text.word(b"receipt ")?;
            hexadecimal(text, receipt)
        }
        None => text.word(b"a payment"),
    }
}

/// Writes the receipt number of a booked payment, and in parentheses where its order stands.
#[tactic(auto, unfolding(crate::specs::Phrases::payment_at))]
pub(crate) fn payment_at(text: &mut Text, row: &OrderRow) -> Result<(), AllocError>
    ensures { OnOk result (text.new ≡ text.old ++ payment_at row.now) }
{
    payment_name(text, &receipt_by(&row.outcome, &row.approval))?;
    text.word(b" (line ")?;
    text.number(row.first)?;
    text.push(b')')
}

/// Writes the same of a payment, if there is one.
#[tactic(auto, unfolding(crate::specs::Phrases::maybe_payment_at))]
pub(crate) fn maybe_payment_at(text: &mut Text, row: &Option<OrderRow>) -> Result<(), AllocError>
    ensures { OnOk result (text.new ≡ text.old ++ maybe_payment_at row.now) }
{
    match row {
        Some(row) => payment_at(text, row),
        None => Ok(()),
    }
}

/// Writes the receipt number of an approval to look for.
#[tactic(auto, unfolding(crate::specs::Phrases::approved_receipt))]
pub(crate) fn approved_receipt(
    text: &mut Text,
    approval: &Option<Approval>,
) -> Result<(), AllocError>
    ensures { OnOk result (text.new ≡ text.old ++ approved_receipt approval.now) }
{
    match approval {
        Some(approval) => receipt_name(text, &approval.receipt),
        None => text.word(b"this payment"),
    }
}

/// Writes a receipt number in parentheses, if there is one.
fn own_receipt(text: &mut Text, receipt: &Option<[u8; 2]>) -> Result<(), AllocError>
    ensures { OnOk result (text.new ≡ text.old ++ own_receipt receipt.now) }
{
    match receipt {
        Some(receipt) => {
            text.word(b" (receipt ")?;
            hexadecimal(text, receipt)?;
            text.push(b')')
        }
        None => Ok(()),
    }
}

/// Writes in parentheses the receipt number of an entry, if it has one.
#[tactic(auto, unfolding(crate::specs::Phrases::entry_part))]
pub(crate) fn entry_part(text: &mut Text, entry: &Option<Entry>) -> Result<(), AllocError>
    ensures { OnOk result (text.new ≡ text.old ++ entry_part entry.now) }
{
    match entry {
        Some(entry) => own_receipt(text, &entry.receipt),
        None => Ok(()),
    }
}

/// Writes why an order is unclear, or with which result it was not done.
#[tactic(auto, unfolding(crate::specs::Phrases::reason))]
pub(crate) fn reason(text: &mut Text, outcome: &Outcome) -> Result<(), AllocError>
    ensures { OnOk result (text.new ≡ text.old ++ reason outcome.now) }
{
    match outcome {
        Outcome::Declined(code) | Outcome::Refused(code) | Outcome::Aborted(code) => {
            result_words(text, *code)
        }
        Outcome::Unclear(cause) => text.word(cause.words().as_bytes()),
        _ => Ok(()),
    }
}

/// Writes that an amount is charged twice, if it was paid again.
#[tactic(auto, unfolding(crate::specs::Phrases::twice_part))]
pub(crate) fn twice_part(text: &mut Text, again: &Option<OrderRow>) -> Result<(), AllocError>
    ensures { OnOk result (text.new ≡ text.old ++ twice_part again.now) }
{
    match again {
        Some(_) => text.word(b" twice"),
        None => Ok(()),
    }
}

/// Returns the numbers of a payment that was booked.
pub(crate) fn paid_numbers(outcome: &Outcome) -> Option<(Trace, Option<[u8; 2]>)>
    ensures { result ≡ paid_numbers outcome.now }
{
    match outcome {
        Outcome::Paid { trace, receipt } => Some((*trace, *receipt)),
        _ => None,
    }
}

/// Writes whether a later payment was made with the same card, and how much later, as far as is known.
#[tactic(auto, unfolding(crate::specs::Phrases::likeness))]
fn likeness(text: &mut Text, row: &OrderRow, again: &OrderRow) -> Result<(), AllocError>
    ensures { OnOk result (text.new ≡ text.old ++ likeness row.now again.now) }
{
    card_part(text, row, again)?;
    apart_part(text, b"later", row, again)
}

/// Writes how an amount was paid again, with these numbers if the later payment was booked.
#[tactic(auto, unfolding(crate::specs::Phrases::paid_again_by))]
fn paid_again_by(
    text: &mut Text,
    decimals: Decimals,
    amount: &Option<Amount>,
    row: &OrderRow,
    again: &OrderRow,
    numbers: &Option<(Trace, Option<[u8; 2]>)>,
) -> Result<(), AllocError>
    ensures { OnOk result (text.new ≡ text.old
        ++ paid_again_by decimals amount.now row.now again.now numbers.now) }
{
    match numbers {
        Some((trace, receipt)) => {
            phrase(text, decimals, b" Then ", amount, b" was paid again")?;
            likeness(text, row, again)?;
            numbers_part(text, again.first, &Some(*trace), receipt)?;
            text.push(b'.')
        }
        None => {
            phrase(text, decimals, b" A later payment of ", amount, b" (line ")?;
            text.number(again.first)?;
            text.word(b") is unclear, too.")
        }
    }
}

/// Writes how an amount was paid again, if it was.
#[tactic(auto, unfolding(crate::specs::Phrases::again_part))]
pub(crate) fn again_part(
    text: &mut Text,
    decimals: Decimals,
    amount: &Option<Amount>,
    row: &OrderRow,
    again: &Option<OrderRow>,
) -> Result<(), AllocError>
    ensures { OnOk result (text.new ≡ text.old ++ again_part decimals amount.now row.now again.now) }
{
    match again {
        Some(again) => {
            let numbers = paid_numbers(&again.outcome);
            paid_again_by(text, decimals, amount, row, again, &numbers)
        }
        None => Ok(()),
    }
}

/// Writes whether the net total counts a payment.
fn total_part(text: &mut Text, reversed: bool) -> Result<(), AllocError>
    ensures { OnOk result (text.new ≡ text.old ++ total_part reversed) }
{
    if reversed {
        text.word(b" The net total does not count the payment.")
    } else {
        text.word(b" The net total still counts the payment.")
    }
}

/// Writes whether the net total counts an entry.
#[tactic(auto, unfolding(crate::specs::Phrases::counted_part))]
pub(crate) fn counted_part(text: &mut Text, entry: &Option<Entry>) -> Result<(), AllocError>
    ensures { OnOk result (text.new ≡ text.old ++ counted_part entry.now) }
{
    match entry {
        Some(entry) => total_part(text, entry.reversed),
        None => Ok(()),
    }
}
