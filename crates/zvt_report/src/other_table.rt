//! Writes the table of the reversals and the other orders that move money.
ghost use Rattle.std.specs.Prelude.{◌≡◌, ◌++◌, OnOk};
ghost use Rattle.std.specs.Option.{option_copied};
ghost use Rattle.zvt_report.specs.OtherTable.{amount_or_blank, headed, money_name, money_row, named, order_columns};
ghost use Rattle.zvt_report.specs.OtherTable.{order_end, order_row, others_from, others_heading, others_text};
ghost use Rattle.zvt_report.specs.OtherTable.{reversal_name, reversal_row};
ghost use Rattle.zvt_report.specs.Places.{no_counts};

use crate::amounts::amount_column;
use crate::currencies::Decimals;
use crate::kinds::{OrderKind, kind_of};
use crate::objects::message_at;
use crate::parts::{amount_at, approved_of};
use crate::payment_table::{fraction_blanks, lines_column, outcome_text, receipt_column};
use crate::places::{Counts, Place};
use crate::rows::{OrderMessage, OrderRow};
use crate::times::time_column;
use std::alloc::AllocError;
use zvt_bcd::Amount;
use zvt_text::{Text, command_name};
use zvt_till::{Entry, Sent};

/// Writes an amount in its column, and a dash if there is none.
#[tactic(auto, unfolding(crate::specs::OtherTable::amount_or_blank))]
fn amount_or_blank(
    text: &mut Text,
    decimals: Decimals,
    amount: &Option<Amount>,
) -> Result<(), AllocError>
    ensures { OnOk result (text.new ≡ text.old ++ amount_or_blank decimals amount.now) }
{
    match amount {
        Some(amount) => amount_column(text, decimals, b"", u128::from(amount.get())),
        None => {
            text.word(b"           -")?;
            fraction_blanks(text, decimals)
        }
    }
}

/// Writes what is taken back.
#[tactic(auto, unfolding(crate::specs::OtherTable::reversal_name))]
pub(crate) fn reversal_name(text: &mut Text, order: &Sent) -> Result<(), AllocError>
    ensures { OnOk result (text.new ≡ text.old ++ reversal_name order.now) }
{
    match order {
        Sent::Reverse(_) => text.word(b"reversal"),
        _ => text.word(b"reversal of a payment that is not in this trace"),
    }
}

/// Writes the name of a command that moves money. Only a payment has none.
fn named(text: &mut Text, name: Option<&str>) -> Result<(), AllocError>
    ensures { OnOk result (text.new ≡ text.old ++ named (option_copied name.entry)) }
{
    match name {
        Some(name) => text.word(name.as_bytes()),
        None => text.word(b"payment without one amount"),
    }
}

/// Writes the name of an order that moves money.
#[tactic(auto, unfolding(crate::specs::OtherTable::money_name))]
pub(crate) fn money_name(text: &mut Text, high: u8, low: u8) -> Result<(), AllocError>
    ensures { OnOk result (text.new ≡ text.old ++ money_name high low) }
{
    named(text, command_name(high, low))
}

/// Writes the time, the amount, the receipt number and the lines of an order.
#[tactic(auto, unfolding(crate::specs::OtherTable::order_columns))]
fn order_columns(
    text: &mut Text,
    decimals: Decimals,
    amount: &Option<Amount>,
    receipt: &Option<[u8; 2]>,
    row: &OrderRow,
) -> Result<(), AllocError>
    ensures { OnOk result (text.new ≡ text.old ++ order_columns decimals amount.now receipt.now row.now) }
{
    time_column(text, &row.time)?;
    amount_or_blank(text, decimals, amount)?;
    text.word(b"  ")?;
    receipt_column(text, receipt)?;
    lines_column(text, row.first, row.last)
}

/// Writes the outcome of an order, and the end of the line.
#[tactic(auto, unfolding(crate::specs::OtherTable::order_end))]
fn order_end(text: &mut Text, row: &OrderRow) -> Result<(), AllocError>
    ensures { OnOk result (text.new ≡ text.old ++ order_end row.now) }
{
    text.word(b", ")?;
    outcome_text(text, &row.order, &row.outcome)?;
    text.push(b'\n')
}

/// Writes the row of a reversal. If the payment is not in the trace, the amount is the one that the message names.
fn reversal_row(
    text: &mut Text,
    decimals: Decimals,
    book: &[Entry],
    place: &Place,
    row: &OrderRow,
    message: &OrderMessage,
) -> Result<(), AllocError>
    ensures { OnOk result (text.new ≡ text.old ++ reversal_row decimals book.now place.now row.now message.now) }
{
    let amount = &amount_at(book, place.entry).or(message.amount);
    order_columns(text, decimals, amount, &message.receipt, row)?;
    reversal_name(text, &row.order)?;
    order_end(text, row)
}

/// Writes the row of another order that moves money. Its amount is the one that the message names, or else the first
/// that the terminal approved.
fn money_row(
    text: &mut Text,
    decimals: Decimals,
    row: &OrderRow,
    message: &OrderMessage,
) -> Result<(), AllocError>
    ensures { OnOk result (text.new ≡ text.old ++ money_row decimals row.now message.now) }
{
    let amount = &message.amount.or(approved_of(row));
    order_columns(text, decimals, amount, &message.receipt, row)?;
    money_name(text, message.high, message.low)?;
    order_end(text, row)
}

/// Writes the row of an order of this kind, if it moves money and is no payment.
#[tactic(auto, unfolding(crate::specs::OtherTable::order_row))]
fn order_row(
    text: &mut Text,
    kind: OrderKind,
    decimals: Decimals,
    book: &[Entry],
    place: &Place,
    row: &OrderRow,
    message: &OrderMessage,
) -> Result<(), AllocError>
    ensures { OnOk result (text.new ≡ text.old
        ++ order_row kind decimals book.now place.now row.now message.now) }
{
    match kind {
        OrderKind::Reversal => reversal_row(text, decimals, book, place, row, message),
        OrderKind::OtherMoney => money_row(text, decimals, row, message),
        OrderKind::Payment | OrderKind::Close | OrderKind::Plain => Ok(()),
    }
}

/// Writes the rows.
fn others_from(
    text: &mut Text,
    decimals: Decimals,
    book: &[Entry],
    messages: &[OrderMessage],
    rows: &[OrderRow],
) -> Result<(), AllocError>
    ensures { OnOk result (text.new ≡ text.old ++ others_from decimals book.now messages.now no_counts rows.now) }
{
    let mut counts = Counts::none();
    let mut rest = rows;
    'rows: while let [row, later @ ..] = rest {
        let message = message_at(messages, counts.orders);
        let kind = kind_of(&row.order, message.high, message.low);
        order_row(
            text,
            kind,
            decimals,
            book,
            &counts.place(row),
            row,
            &message,
        )?;
        counts = counts.after(row);
        rest = later;
    }
    Ok(())
}

/// Writes the heading of the table.
#[tactic(auto, unfolding(crate::specs::OtherTable::others_heading))]
fn others_heading(text: &mut Text, decimals: Decimals) -> Result<(), AllocError>
    ensures { OnOk result (text.new ≡ text.old ++ others_heading decimals) }
{
    text.word(b"\nReversals and other orders that move money\n  Time          Amount")?;
    fraction_blanks(text, decimals)?;
    text.word(b"  Receipt    Lines          Order\n")
}

/// Writes these rows under their heading, if there are any.
fn headed(text: &mut Text, decimals: Decimals, rows: &[u8]) -> Result<(), AllocError>
    ensures { OnOk result (text.new ≡ text.old ++ headed decimals rows.now) }
{
    if rows.is_empty() {
        return Ok(());
    }
    others_heading(text, decimals)?;
    text.word(rows)
}

/// Writes the table, if it has rows. They are put together in `note`, whose own text is lost.
pub(crate) fn others_text(
    text: &mut Text,
    note: &mut Text,
    decimals: Decimals,
    book: &[Entry],
    messages: &[OrderMessage],
    rows: &[OrderRow],
) -> Result<(), AllocError>
    ensures { OnOk result (text.new ≡ text.old ++ others_text decimals book.now messages.now rows.now) }
{
    note.clear();
    others_from(note, decimals, book, messages, rows)?;
    headed(text, decimals, note.bytes())
}
