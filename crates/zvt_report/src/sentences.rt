//! Writes what happened to an order that a person should look at.
ghost use Rattle.std.specs.Prelude.{◌≡◌, ◌++◌, OnOk};
ghost use Rattle.zvt_report.specs.Sentences.{account, alike_account, alike_payments, apart_from, approved_account};
ghost use Rattle.zvt_report.specs.Sentences.{asked_of, close_account, differs_account, elsewhere_account};
ghost use Rattle.zvt_report.specs.Sentences.{elsewhere_unclear_account, later_part, other_account};
ghost use Rattle.zvt_report.specs.Sentences.{other_amount_account, refused_account, repeated_account};
ghost use Rattle.zvt_report.specs.Sentences.{reversal_account, taken_back_account, unclear_account, undone_account};
ghost use Rattle.zvt_report.specs.Sentences.{undone_part};

use crate::apart::apart_part;
use crate::card_texts::card_or_dash;
use crate::cases::Case;
use crate::confirmations::{confirmed_part, counted_as_paid, under_trace};
use crate::currencies::Decimals;
use crate::differences::{shares_part, totals_part};
use crate::facts::Facts;
use crate::parts::approved_of;
use crate::phrases::{
    again_part, amount_of, amount_or_dash, approval_part, counted_part, entry_part,
    maybe_payment_at, payment_at, payment_name, phrase, reason,
};
use crate::rows::OrderRow;
use std::alloc::AllocError;
use zvt_bcd::Amount;
use zvt_text::Text;
use zvt_till::{Entry, Outcome};

/// Returns the amount of a payment, or of the payment that a reversal takes back.
pub(crate) fn asked_of(facts: &Facts) -> Option<Amount>
    ensures { result ≡ asked_of facts.now }
{
    amount_of(&facts.entry, &facts.row.order)
}

/// Writes what happened to a payment later: it was paid again, or an end of day counts it.
fn later_part(
    text: &mut Text,
    decimals: Decimals,
    asked: &Option<Amount>,
    facts: &Facts,
) -> Result<(), AllocError>
    ensures { OnOk result (text.new ≡ text.old ++ later_part decimals asked.now facts.now) }
{
    again_part(text, decimals, asked, &facts.row, &facts.again)?;
    counted_as_paid(text, facts.counted)
}

/// Writes what happened to a payment that was approved, but is unclear.
fn approved_account(
    text: &mut Text,
    decimals: Decimals,
    asked: &Option<Amount>,
    facts: &Facts,
) -> Result<(), AllocError>
    ensures { OnOk result (text.new ≡ text.old ++ approved_account decimals asked.now facts.now) }
{
    phrase(text, decimals, b"The terminal approved ", asked, b"")?;
    approval_part(text, &facts.row.approval)?;
    text.word(b", but the payment is unclear: ")?;
    reason(text, &facts.row.outcome)?;
    text.push(b'.')?;
    later_part(text, decimals, asked, facts)
}

/// Writes what happened to an unclear payment whose approval the terminal repeated in a later order.
fn repeated_account(
    text: &mut Text,
    decimals: Decimals,
    asked: &Option<Amount>,
    facts: &Facts,
) -> Result<(), AllocError>
    ensures { OnOk result (text.new ≡ text.old ++ repeated_account decimals asked.now facts.now) }
{
    phrase(text, decimals, b"The payment of ", asked, b" is unclear: ")?;
    reason(text, &facts.row.outcome)?;
    confirmed_part(text, decimals, asked, facts.asked_again, &facts.confirmed)?;
    text.push(b'.')?;
    later_part(text, decimals, asked, facts)
}

/// Writes which approval was taken back.
fn undone_part(text: &mut Text, decimals: Decimals, facts: &Facts) -> Result<(), AllocError>
    ensures { OnOk result (text.new ≡ text.old ++ undone_part decimals facts.now) }
{
    amount_or_dash(text, decimals, &approved_of(&facts.row))?;
    approval_part(text, &facts.row.approval)?;
    text.word(b", and then took it back")?;
    under_trace(text, &facts.undone_by)
}

/// Writes what happened to a payment whose approval was taken back.
fn undone_account(
    text: &mut Text,
    decimals: Decimals,
    asked: &Option<Amount>,
    facts: &Facts,
) -> Result<(), AllocError>
    ensures { OnOk result (text.new ≡ text.old ++ undone_account decimals asked.now facts.now) }
{
    text.word(b"The terminal approved ")?;
    undone_part(text, decimals, facts)?;
    text.word(b". The payment is unclear: ")?;
    reason(text, &facts.row.outcome)?;
    text.push(b'.')?;
    later_part(text, decimals, asked, facts)
}

/// Writes what happened to a payment if the terminal approved another amount.
fn other_amount_account(
    text: &mut Text,
    decimals: Decimals,
    asked: &Option<Amount>,
    row: &OrderRow,
    again: &Option<OrderRow>,
) -> Result<(), AllocError>
    ensures { OnOk result (text.new ≡ text.old ++ other_amount_account decimals asked.now row.now again.now) }
{
    phrase(
        text,
        decimals,
        b"The till asked for ",
        asked,
        b", but the terminal approved ",
    )?;
    amount_or_dash(text, decimals, &approved_of(row))?;
    approval_part(text, &row.approval)?;
    text.word(b", perhaps with a tip. The payment is unclear: ")?;
    reason(text, &row.outcome)?;
    text.push(b'.')?;
    again_part(text, decimals, asked, row, again)
}

/// Writes what happened to an unclear payment without an approval.
fn unclear_account(
    text: &mut Text,
    decimals: Decimals,
    asked: &Option<Amount>,
    facts: &Facts,
) -> Result<(), AllocError>
    ensures { OnOk result (text.new ≡ text.old ++ unclear_account decimals asked.now facts.now) }
{
    phrase(text, decimals, b"The payment of ", asked, b" is unclear: ")?;
    reason(text, &facts.row.outcome)?;
    text.word(b". The till heard no approval, but the terminal may have given one.")?;
    later_part(text, decimals, asked, facts)
}

/// Writes how far a payment is apart from an earlier one, if that is known.
#[tactic(auto, unfolding(crate::specs::Sentences::apart_from))]
fn apart_from(text: &mut Text, earlier: &Option<OrderRow>, row: &OrderRow) -> Result<(), AllocError>
    ensures { OnOk result (text.new ≡ text.old ++ apart_from earlier.now row.now) }
{
    match earlier {
        Some(earlier) => apart_part(text, b"apart", earlier, row),
        None => Ok(()),
    }
}

/// Writes which payments have one amount.
fn alike_payments(
    text: &mut Text,
    row: &OrderRow,
    earlier: &Option<OrderRow>,
) -> Result<(), AllocError>
    ensures { OnOk result (text.new ≡ text.old ++ alike_payments row.now earlier.now) }
{
    apart_from(text, earlier, row)?;
    text.word(b": ")?;
    maybe_payment_at(text, earlier)?;
    text.word(b" and ")?;
    payment_at(text, row)
}

/// Writes how one card paid an amount twice.
fn alike_account(
    text: &mut Text,
    decimals: Decimals,
    asked: &Option<Amount>,
    row: &OrderRow,
    earlier: &Option<OrderRow>,
) -> Result<(), AllocError>
    ensures { OnOk result (text.new ≡ text.old ++ alike_account decimals asked.now row.now earlier.now) }
{
    card_or_dash(text, &row.card)?;
    phrase(text, decimals, b" paid ", asked, b" twice")?;
    alike_payments(text, row, earlier)?;
    text.word(b". Both are booked.")
}

/// Writes what happened to a reversal that is unclear.
fn reversal_account(
    text: &mut Text,
    decimals: Decimals,
    asked: &Option<Amount>,
    entry: &Option<Entry>,
    outcome: &Outcome,
) -> Result<(), AllocError>
    ensures { OnOk result (text.new ≡ text.old ++ reversal_account decimals asked.now entry.now outcome.now) }
{
    phrase(text, decimals, b"The reversal of ", asked, b"")?;
    entry_part(text, entry)?;
    text.word(b" is unclear: ")?;
    reason(text, outcome)?;
    text.push(b'.')?;
    counted_part(text, entry)
}

/// Writes what happened to a payment that the terminal had already taken back.
fn taken_back_account(
    text: &mut Text,
    decimals: Decimals,
    asked: &Option<Amount>,
    entry: &Option<Entry>,
) -> Result<(), AllocError>
    ensures { OnOk result (text.new ≡ text.old ++ taken_back_account decimals asked.now entry.now) }
{
    phrase(
        text,
        decimals,
        b"The terminal says that it had already taken back ",
        asked,
        b"",
    )?;
    entry_part(text, entry)?;
    text.word(b", but this trace has no completed reversal of the payment.")?;
    counted_part(text, entry)
}

/// Writes what happened to a reversal that the terminal did not do.
fn refused_account(
    text: &mut Text,
    decimals: Decimals,
    asked: &Option<Amount>,
    entry: &Option<Entry>,
    outcome: &Outcome,
) -> Result<(), AllocError>
    ensures { OnOk result (text.new ≡ text.old ++ refused_account decimals asked.now entry.now outcome.now) }
{
    phrase(
        text,
        decimals,
        b"The terminal did not take back ",
        asked,
        b"",
    )?;
    entry_part(text, entry)?;
    text.word(b": ")?;
    reason(text, outcome)?;
    text.push(b'.')
}

/// Writes what happened to a reversal of a payment that is not in the trace.
fn elsewhere_account(text: &mut Text, receipt: &Option<[u8; 2]>) -> Result<(), AllocError>
    ensures { OnOk result (text.new ≡ text.old ++ elsewhere_account receipt.now) }
{
    text.word(b"The terminal took back ")?;
    payment_name(text, receipt)?;
    text.word(b". The payment is not booked in this trace, so the net total does not change.")
}

/// Writes what happened to such a reversal that is unclear.
fn elsewhere_unclear_account(
    text: &mut Text,
    receipt: &Option<[u8; 2]>,
    outcome: &Outcome,
) -> Result<(), AllocError>
    ensures { OnOk result (text.new ≡ text.old ++ elsewhere_unclear_account receipt.now outcome.now) }
{
    text.word(b"The reversal of ")?;
    payment_name(text, receipt)?;
    text.word(b" is unclear: ")?;
    reason(text, outcome)?;
    text.word(b". The payment is not booked in this trace, so the net total does not change.")
}

/// Writes what happened to an unclear order that moves money beside the book.
fn other_account(text: &mut Text, outcome: &Outcome) -> Result<(), AllocError>
    ensures { OnOk result (text.new ≡ text.old ++ other_account outcome.now) }
{
    text.word(b"The order is unclear: ")?;
    reason(text, outcome)?;
    text.word(b". No total of this report counts it.")
}

/// Writes what happened to an end of day.
fn close_account(text: &mut Text, start: &[u8], outcome: &Outcome) -> Result<(), AllocError>
    ensures { OnOk result (text.new ≡ text.old ++ close_account start.now outcome.now) }
{
    text.word(start)?;
    reason(text, outcome)?;
    text.push(b'.')
}

/// Writes how the total of an end of day differs from the book.
fn differs_account(text: &mut Text, decimals: Decimals, facts: &Facts) -> Result<(), AllocError>
    ensures { OnOk result (text.new ≡ text.old ++ differs_account decimals facts.now) }
{
    totals_part(text, decimals, &facts.closing)?;
    shares_part(text, decimals, &facts.shares)
}

/// Writes what happened to an order in this case.
pub(crate) fn account(
    text: &mut Text,
    decimals: Decimals,
    facts: &Facts,
    case: Case,
) -> Result<(), AllocError>
    ensures { OnOk result (text.new ≡ text.old ++ account decimals facts.now case) }
{
    let asked = &asked_of(facts);
    let (row, entry, again) = (&facts.row, &facts.entry, &facts.again);
    let outcome = &row.outcome;
    match case {
        Case::ApprovedNotCompleted => approved_account(text, decimals, asked, facts),
        Case::ApprovalRepeated => repeated_account(text, decimals, asked, facts),
        Case::ApprovedThenUndone => undone_account(text, decimals, asked, facts),
        Case::OtherAmount => other_amount_account(text, decimals, asked, row, again),
        Case::PaymentUnclear => unclear_account(text, decimals, asked, facts),
        Case::PaidAlike => alike_account(text, decimals, asked, row, again),
        Case::ReversalUnclear => reversal_account(text, decimals, asked, entry, outcome),
        Case::TakenBackBefore => taken_back_account(text, decimals, asked, entry),
        Case::ReversalRefused => refused_account(text, decimals, asked, entry, outcome),
        Case::ReversalElsewhere => elsewhere_account(text, &facts.message.receipt),
        Case::ElsewhereUnclear => {
            elsewhere_unclear_account(text, &facts.message.receipt, outcome)
        }
        Case::OtherUnclear => other_account(text, outcome),
        Case::CloseUnclear => close_account(text, b"The end of day is unclear: ", outcome),
        Case::CloseRefused => close_account(text, b"The terminal did not close the day: ", outcome),
        Case::CloseDiffers => differs_account(text, decimals, facts),
    }
}
