//! Writes what to do about an order that a person should look at.
ghost use Rattle.std.specs.Prelude.{◌≡◌, ◌++◌, OnOk};
ghost use Rattle.zvt_report.specs.Advices.{advice, alike_advice, approved_advice, charged_words, fixed_advice};
ghost use Rattle.zvt_report.specs.Advices.{other_amount_advice, repeated_advice, reversal_advice, unclear_advice};

use crate::cases::Case;
use crate::confirmations::{receipt_of, unless_earlier};
use crate::currencies::Decimals;
use crate::differences::shares_advice;
use crate::facts::Facts;
use crate::parts::{approved_of, receipt_by};
use crate::phrases::{amount_or_dash, approved_receipt, receipt_name};
use crate::rows::{Approval, OrderRow};
use crate::sentences::asked_of;
use std::alloc::AllocError;
use zvt_bcd::Amount;
use zvt_text::Text;

/// Writes what to do about a payment that was approved, but is unclear.
fn approved_advice(
    text: &mut Text,
    approval: &Option<Approval>,
    again: &Option<OrderRow>,
) -> Result<(), AllocError>
    ensures { OnOk result (text.new ≡ text.old ++ approved_advice approval.now again.now) }
{
    match again {
        Some(_) => {
            text.word(b"The customer may have paid twice. If the terminal's journal has ")?;
            approved_receipt(text, approval)?;
            text.word(b", take it back, since the later payment covers the sale.")
        }
        None => {
            text.word(b"The customer has probably been charged. Look for ")?;
            approved_receipt(text, approval)?;
            text.word(b" in the terminal's journal before you charge again.")
        }
    }
}

/// Writes what to do about a payment if the terminal approved another amount.
fn other_amount_advice(
    text: &mut Text,
    decimals: Decimals,
    row: &OrderRow,
) -> Result<(), AllocError>
    ensures { OnOk result (text.new ≡ text.old ++ other_amount_advice decimals row.now) }
{
    text.word(b"The customer has probably been charged ")?;
    amount_or_dash(text, decimals, &approved_of(row))?;
    text.word(b". If the terminal's journal has ")?;
    approved_receipt(text, &row.approval)?;
    text.word(b", add that amount to the day by hand, or take it back and charge again.")
}

/// Writes what to do about an unclear payment without an approval.
fn unclear_advice(
    text: &mut Text,
    decimals: Decimals,
    asked: &Option<Amount>,
    again: &Option<OrderRow>,
) -> Result<(), AllocError>
    ensures { OnOk result (text.new ≡ text.old ++ unclear_advice decimals asked.now again.now) }
{
    match again {
        Some(_) => {
            text.word(b"Look in the terminal's journal for two payments of ")?;
            amount_or_dash(text, decimals, asked)?;
            text.word(b". The customer may have paid twice.")
        }
        None => {
            text.word(b"Look for a payment of ")?;
            amount_or_dash(text, decimals, asked)?;
            text.word(b" in the terminal's journal before you charge again.")
        }
    }
}

/// Writes what to do about a payment that is like an earlier one.
fn alike_advice(text: &mut Text, receipt: &Option<[u8; 2]>) -> Result<(), AllocError>
    ensures { OnOk result (text.new ≡ text.old ++ alike_advice receipt.now) }
{
    text.word(b"Were these two sales, or was one sale charged twice? If it was one, take back ")?;
    receipt_name(text, receipt)?;
    text.push(b'.')
}

/// Returns what is true of the customer if the terminal charged a payment.
fn charged_words(again: &Option<OrderRow>) -> &'static [u8]
    ensures { result.now ≡ charged_words again.now }
{
    match again {
        Some(_) => b", the customer has been charged for it, and may have paid twice.",
        None => b", the customer has been charged. Do not charge again.",
    }
}

/// Writes what to do about an unclear payment whose approval the terminal repeated in a later order.
fn repeated_advice(
    text: &mut Text,
    receipt: &Option<[u8; 2]>,
    again: &Option<OrderRow>,
) -> Result<(), AllocError>
    ensures { OnOk result (text.new ≡ text.old ++ repeated_advice receipt.now again.now) }
{
    unless_earlier(text, receipt)?;
    text.word(charged_words(again))
}

/// Returns what to do about an unclear reversal.
fn reversal_advice() -> &'static [u8]
    ensures { result.now ≡ reversal_advice }
{
    b"Look for the reversal in the terminal's journal before you give money back. You can also reverse the payment \
        again: if the terminal then answers B4, it had already taken the payment back."
}

/// Returns what to do about an order in this case, if it depends on nothing else.
fn fixed_advice(case: Case) -> &'static [u8]
    ensures { result.now ≡ fixed_advice case }
{
    match case {
        Case::ReversalUnclear | Case::ElsewhereUnclear => reversal_advice(),
        Case::ApprovedThenUndone => {
            b"The customer has probably not been charged. Look for both trace numbers in the terminal's journal to be \
                sure."
        }
        Case::TakenBackBefore => b"Subtract the payment from the net total by hand.",
        Case::ReversalRefused => {
            b"If the customer was promised the money, it has not been given back."
        }
        Case::ReversalElsewhere => b"Look for the payment in an earlier trace.",
        Case::OtherUnclear => {
            b"Look for the order in the terminal's journal before you send it again."
        }
        Case::CloseUnclear => {
            b"If the terminal printed no end-of-day receipt, start the end of day again."
        }
        Case::CloseRefused => b"Start the end of day again.",
        Case::ApprovedNotCompleted
        | Case::ApprovalRepeated
        | Case::OtherAmount
        | Case::PaymentUnclear
        | Case::PaidAlike
        | Case::CloseDiffers => b"",
    }
}

/// Writes what to do about an order in this case.
pub(crate) fn advice(
    text: &mut Text,
    decimals: Decimals,
    facts: &Facts,
    case: Case,
) -> Result<(), AllocError>
    ensures { OnOk result (text.new ≡ text.old ++ advice decimals facts.now case) }
{
    let row = &facts.row;
    match case {
        Case::ApprovedNotCompleted => approved_advice(text, &row.approval, &facts.again),
        Case::ApprovalRepeated => {
            repeated_advice(text, &receipt_of(&facts.confirmed), &facts.again)
        }
        Case::OtherAmount => other_amount_advice(text, decimals, row),
        Case::PaymentUnclear => unclear_advice(text, decimals, &asked_of(facts), &facts.again),
        Case::PaidAlike => alike_advice(text, &receipt_by(&row.outcome, &row.approval)),
        Case::CloseDiffers => text.word(shares_advice(&facts.shares)),
        _ => text.word(fixed_advice(case)),
    }
}
