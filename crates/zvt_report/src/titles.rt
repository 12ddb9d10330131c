//! Writes the titles of the orders that a person should look at.
ghost use Rattle.std.specs.Prelude.{◌≡◌, ◌++◌, OnOk};
ghost use Rattle.zvt_report.specs.Sentences.{charged_title, differs_title, other_amount_title, other_title, title};
ghost use Rattle.zvt_report.specs.Sentences.{undone_title};

use crate::cases::Case;
use crate::closings::Closing;
use crate::confirmations::of_amount;
use crate::currencies::Decimals;
use crate::differences::distance_part;
use crate::facts::Facts;
use crate::other_table::money_name;
use crate::parts::approved_of;
use crate::phrases::{amount_or_dash, phrase, twice_part};
use crate::rows::{OrderMessage, OrderRow};
use crate::sentences::asked_of;
use std::alloc::AllocError;
use zvt_bcd::Amount;
use zvt_text::Text;

/// Writes the title of an unclear order that moves money beside the book.
fn other_title(
    text: &mut Text,
    decimals: Decimals,
    message: &OrderMessage,
    row: &OrderRow,
) -> Result<(), AllocError>
    ensures { OnOk result (text.new ≡ text.old ++ other_title decimals message.now row.now) }
{
    text.word(b"Order")?;
    of_amount(text, decimals, &message.amount.or(approved_of(row)))?;
    text.word(b" unclear: ")?;
    money_name(text, message.high, message.low)
}

/// Writes the title of a payment that may have been charged.
fn charged_title(
    text: &mut Text,
    decimals: Decimals,
    asked: &Option<Amount>,
    again: &Option<OrderRow>,
) -> Result<(), AllocError>
    ensures { OnOk result (text.new ≡ text.old ++ charged_title decimals asked.now again.now) }
{
    phrase(text, decimals, b"", asked, b" may have been charged")?;
    twice_part(text, again)
}

/// Writes the title of a payment whose approval was taken back.
fn undone_title(
    text: &mut Text,
    decimals: Decimals,
    asked: &Option<Amount>,
) -> Result<(), AllocError>
    ensures { OnOk result (text.new ≡ text.old ++ undone_title decimals asked.now) }
{
    amount_or_dash(text, decimals, asked)?;
    text.word(b" approved, then taken back")
}

/// Writes the title of a payment if the terminal approved another amount.
fn other_amount_title(
    text: &mut Text,
    decimals: Decimals,
    asked: &Option<Amount>,
    row: &OrderRow,
) -> Result<(), AllocError>
    ensures { OnOk result (text.new ≡ text.old ++ other_amount_title decimals asked.now row.now) }
{
    phrase(text, decimals, b"", asked, b" asked for, ")?;
    amount_or_dash(text, decimals, &approved_of(row))?;
    text.word(b" approved")
}

/// Writes the title of an end of day whose total differs from the book.
fn differs_title(
    text: &mut Text,
    decimals: Decimals,
    closing: &Option<Closing>,
) -> Result<(), AllocError>
    ensures { OnOk result (text.new ≡ text.old ++ differs_title decimals closing.now) }
{
    text.word(b"End of day differs")?;
    distance_part(text, decimals, closing)
}

/// Writes the title of an order in this case.
pub(crate) fn title(
    text: &mut Text,
    decimals: Decimals,
    facts: &Facts,
    case: Case,
) -> Result<(), AllocError>
    ensures { OnOk result (text.new ≡ text.old ++ title decimals facts.now case) }
{
    let asked = &asked_of(facts);
    match case {
        Case::ApprovedNotCompleted | Case::ApprovalRepeated => {
            charged_title(text, decimals, asked, &facts.again)
        }
        Case::ApprovedThenUndone => undone_title(text, decimals, asked),
        Case::OtherAmount => other_amount_title(text, decimals, asked, &facts.row),
        Case::PaymentUnclear => phrase(text, decimals, b"Payment of ", asked, b" unclear"),
        Case::PaidAlike => phrase(text, decimals, b"", asked, b" paid twice with one card"),
        Case::ReversalUnclear => phrase(text, decimals, b"Reversal of ", asked, b" unclear"),
        Case::TakenBackBefore => phrase(text, decimals, b"", asked, b" already taken back"),
        Case::ReversalRefused => phrase(text, decimals, b"Reversal of ", asked, b" not done"),
        Case::ReversalElsewhere => text.word(b"Reversal of a payment that is not in this trace"),
        Case::ElsewhereUnclear => {
            text.word(b"Unclear reversal of a payment that is not in this trace")
        }
        Case::OtherUnclear => other_title(text, decimals, &facts.message, &facts.row),
        Case::CloseUnclear => text.word(b"End of day unclear"),
        Case::CloseRefused => text.word(b"Day not closed"),
        Case::CloseDiffers => differs_title(text, decimals, &facts.closing),
    }
}
