//! Writes the table of the reversals and the other orders that move money to a page.
ghost use Rattle.std.specs.Prelude.{◌≡◌, ◌++◌, OnOk};
ghost use Rattle.zvt_page.specs.Html.{class_of, end_tag, render, start_tag};
ghost use Rattle.zvt_report.specs.PageParts.{amount_cell, lines_cell, receipt_cell, time_cell};
ghost use Rattle.zvt_report.specs.PageTables.{has_rows, headed_table, is_listed, money_row, other_columns, other_end};
ghost use Rattle.zvt_report.specs.PageTables.{other_of, other_rows, others_section, others_table, reversal_row};
ghost use Rattle.zvt_report.specs.Places.{no_counts};
ghost use Rattle.zvt_report.specs.Tones.{outcome_tone, row_class};

use crate::books::DayBooks;
use crate::currencies::Decimals;
use crate::kinds::{OrderKind, kind_of};
use crate::objects::message_at;
use crate::other_table::{money_name, reversal_name};
use crate::page_parts::{
    amount_cell, column, lines_cell, outcome_cell, receipt_cell, table_body, table_end,
    table_start, time_cell, time_heading,
};
use crate::parts::{amount_at, approved_of};
use crate::payment_table::outcome_text;
use crate::places::{Counts, Place};
use crate::rows::{OrderMessage, OrderRow};
use crate::times::have_times;
use crate::tones::outcome_tone;
use std::alloc::AllocError;
use zvt_bcd::Amount;
use zvt_page::{Element, end, leaf, start};
use zvt_text::Text;
use zvt_till::Entry;

/// Writes the headings of the table.
#[tactic(auto, unfolding(crate::specs::PageTables::other_columns))]
fn other_columns(page: &mut Text, timed: bool) -> Result<(), AllocError>
    ensures { OnOk result (page.new ≡ page.old ++ render (other_columns timed)) }
{
    time_heading(page, timed)?;
    column(page, b"n am", b"Amount")?;
    column(page, b"cd", b"Order")?;
    column(page, b"rc", b"Receipt")?;
    column(page, b"oc", b"Outcome")?;
    column(page, b"ln", b"Lines")
}

/// Writes how an order ended.
#[tactic(auto, unfolding(crate::specs::PageTables::other_end))]
fn other_end(page: &mut Text, note: &mut Text, row: &OrderRow) -> Result<(), AllocError>
    ensures { OnOk result (page.new ≡ page.old ++ render (other_end row.now)) }
{
    note.clear();
    outcome_text(note, &row.order, &row.outcome)?;
    outcome_cell(page, outcome_tone(&row.outcome), note.bytes())
}

/// Writes the start of a row, its time and its amount.
fn row_start(
    page: &mut Text,
    note: &mut Text,
    timed: bool,
    decimals: Decimals,
    amount: &Option<Amount>,
    row: &OrderRow,
) -> Result<(), AllocError>
    ensures { OnOk result (page.new ≡ page.old ++ (start_tag Element.Tr
        (class_of (row_class (outcome_tone row.now.outcome))) ++ (render (time_cell timed row.now.time)
        ++ render (amount_cell decimals amount.now)))) }
{
    start(
        page,
        Element::Tr,
        outcome_tone(&row.outcome).row_class(),
        None,
    )?;
    time_cell(page, note, timed, &row.time)?;
    amount_cell(page, note, decimals, amount)
}

/// Writes the receipt number, the outcome and the lines of an order, and the end of its row.
fn row_end(
    page: &mut Text,
    note: &mut Text,
    receipt: &Option<[u8; 2]>,
    row: &OrderRow,
) -> Result<(), AllocError>
    ensures { OnOk result (page.new ≡ page.old ++ (render (receipt_cell receipt.now) ++ (render (other_end row.now)
        ++ (render (lines_cell row.now.first row.now.last) ++ end_tag Element.Tr)))) }
{
    receipt_cell(page, note, receipt)?;
    other_end(page, note, row)?;
    lines_cell(page, note, row.first, row.last)?;
    end(page, Element::Tr)
}

/// Writes the row of a reversal. If the payment is not in the trace, the amount is the one that the message names.
#[tactic(auto, unfolding(crate::specs::PageTables::other_row))]
fn reversal_row(
    page: &mut Text,
    note: &mut Text,
    timed: bool,
    decimals: Decimals,
    book: &[Entry],
    place: &Place,
    row: &OrderRow,
    message: &OrderMessage,
) -> Result<(), AllocError>
    ensures { OnOk result (page.new ≡ page.old
        ++ render (reversal_row timed decimals book.now place.now row.now message.now)) }
{
    let amount = &amount_at(book, place.entry).or(message.amount);
    row_start(page, note, timed, decimals, amount, row)?;
    note.clear();
    reversal_name(note, &row.order)?;
    leaf(page, Element::Td, b"cd", note.bytes())?;
    row_end(page, note, &message.receipt, row)
}

/// Writes the row of another order that moves money. Its amount is the one that the message names, or else the first
/// that the terminal approved.
#[tactic(auto, unfolding(crate::specs::PageTables::other_row))]
fn money_row(
    page: &mut Text,
    note: &mut Text,
    timed: bool,
    decimals: Decimals,
    row: &OrderRow,
    message: &OrderMessage,
) -> Result<(), AllocError>
    ensures { OnOk result (page.new ≡ page.old ++ render (money_row timed decimals row.now message.now)) }
{
    let amount = &message.amount.or(approved_of(row));
    row_start(page, note, timed, decimals, amount, row)?;
    note.clear();
    money_name(note, message.high, message.low)?;
    leaf(page, Element::Td, b"cd", note.bytes())?;
    row_end(page, note, &message.receipt, row)
}

/// Writes the row of an order of this kind, if it moves money and is no payment.
#[tactic(auto, unfolding(crate::specs::PageTables::other_of))]
fn other_of(
    page: &mut Text,
    note: &mut Text,
    timed: bool,
    kind: OrderKind,
    decimals: Decimals,
    book: &[Entry],
    place: &Place,
    row: &OrderRow,
    message: &OrderMessage,
) -> Result<(), AllocError>
    ensures { OnOk result (page.new ≡ page.old
        ++ render (other_of timed kind decimals book.now place.now row.now message.now)) }
{
    match kind {
        OrderKind::Reversal => reversal_row(page, note, timed, decimals, book, place, row, message),
        OrderKind::OtherMoney => money_row(page, note, timed, decimals, row, message),
        OrderKind::Payment | OrderKind::Close | OrderKind::Plain => Ok(()),
    }
}

/// Writes the rows.
fn other_rows(
    page: &mut Text,
    note: &mut Text,
    timed: bool,
    decimals: Decimals,
    book: &[Entry],
    messages: &[OrderMessage],
    rows: &[OrderRow],
) -> Result<(), AllocError>
    ensures { OnOk result (page.new ≡ page.old
        ++ render (other_rows timed decimals book.now messages.now no_counts rows.now)) }
{
    let mut counts = Counts::none();
    let mut rest = rows;
    'rows: while let [row, later @ ..] = rest {
        let message = message_at(messages, counts.orders);
        let kind = kind_of(&row.order, message.high, message.low);
        let place = counts.place(row);
        other_of(
            page, note, timed, kind, decimals, book, &place, row, &message,
        )?;
        counts = counts.after(row);
        rest = later;
    }
    Ok(())
}

/// Whether the table lists orders of this kind.
fn is_listed(kind: OrderKind) -> bool
    ensures { result ≡ is_listed kind }
{
    match kind {
        OrderKind::Reversal | OrderKind::OtherMoney => true,
        OrderKind::Payment | OrderKind::Close | OrderKind::Plain => false,
    }
}

/// Whether the table has a row.
fn has_rows(messages: &[OrderMessage], rows: &[OrderRow]) -> bool
    ensures { result ≡ has_rows messages.now 0 rows.now }
{
    let mut place = 0;
    let mut rest = rows;
    'rows: while let [row, later @ ..] = rest {
        let message = message_at(messages, place);
        if is_listed(kind_of(&row.order, message.high, message.low)) {
            return true;
        }
        place += 1;
        rest = later;
    }
    false
}

/// Writes the table.
fn others_table(
    page: &mut Text,
    note: &mut Text,
    decimals: Decimals,
    book: &[Entry],
    messages: &[OrderMessage],
    rows: &[OrderRow],
) -> Result<(), AllocError>
    ensures { OnOk result (page.new ≡ page.old
        ++ render (others_table decimals book.now messages.now rows.now)) }
{
    let timed = have_times(rows);
    table_start(page)?;
    other_columns(page, timed)?;
    table_body(page)?;
    other_rows(page, note, timed, decimals, book, messages, rows)?;
    table_end(page)
}

/// Writes the table under its heading.
fn headed_table(
    page: &mut Text,
    note: &mut Text,
    decimals: Decimals,
    book: &[Entry],
    messages: &[OrderMessage],
    rows: &[OrderRow],
) -> Result<(), AllocError>
    ensures { OnOk result (page.new ≡ page.old
        ++ render (headed_table decimals book.now messages.now rows.now)) }
{
    let heading = b"Reversals and other orders that move money";
    leaf(page, Element::H2, b"", heading)?;
    others_table(page, note, decimals, book, messages, rows)
}

/// Writes the table, if it has a row.
#[tactic(auto, unfolding(crate::specs::PageTables::others_section))]
pub(crate) fn others_section(
    page: &mut Text,
    note: &mut Text,
    decimals: Decimals,
    books: &DayBooks,
    messages: &[OrderMessage],
) -> Result<(), AllocError>
    ensures { OnOk result (page.new ≡ page.old ++ render (others_section decimals books.now messages.now)) }
{
    let book = books.book.as_slice();
    let rows = books.orders.as_slice();
    if has_rows(messages, rows) {
        headed_table(page, note, decimals, book, messages, rows)
    } else {
        Ok(())
    }
}
