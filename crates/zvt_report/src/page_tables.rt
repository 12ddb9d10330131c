//! Writes the tables of a page.
ghost use Rattle.std.specs.Prelude.{◌≡◌, ◌++◌, OnOk};
ghost use Rattle.zvt_page.specs.Html.{render};
ghost use Rattle.zvt_report.specs.PageTables.{card_cell, number_cell, payment_columns, payment_end, payment_of};
ghost use Rattle.zvt_report.specs.PageTables.{payment_row, payment_rows, payments_or_none, payments_section};
ghost use Rattle.zvt_report.specs.PageTables.{payments_table};
ghost use Rattle.zvt_report.specs.Places.{no_counts};

use crate::books::DayBooks;
use crate::card_texts::card_or_nothing;
use crate::cards::Card;
use crate::currencies::Decimals;
use crate::page_parts::{
    amount_cell, column, lines_cell, outcome_cell, receipt_cell, table_body, table_end,
    table_start, time_cell, time_heading, trace_cell,
};
use crate::parts::{receipt_by, trace_by};
use crate::payment_table::{entry_at, payment_text};
use crate::places::{Counts, Place, payments_in};
use crate::rows::OrderRow;
use crate::times::have_times;
use crate::tones::payment_tone;
use std::alloc::AllocError;
use zvt_bcd::Amount;
use zvt_page::{Element, end, leaf, start};
use zvt_text::Text;
use zvt_till::{Entry, Sent};

/// Writes the headings of the table of the payments.
#[tactic(auto, unfolding(crate::specs::PageTables::payment_columns))]
fn payment_columns(page: &mut Text, timed: bool) -> Result<(), AllocError>
    ensures { OnOk result (page.new ≡ page.old ++ render (payment_columns timed)) }
{
    column(page, b"i n", b"#")?;
    time_heading(page, timed)?;
    column(page, b"n am", b"Amount")?;
    column(page, b"ids", b"Trace")?;
    column(page, b"rc", b"Receipt")?;
    column(page, b"ca", b"Card")?;
    column(page, b"oc", b"Outcome")?;
    column(page, b"ln", b"Lines")
}

/// Writes the cell of a payment's number.
#[tactic(auto, unfolding(crate::specs::PageTables::number_cell))]
fn number_cell(page: &mut Text, note: &mut Text, number: usize) -> Result<(), AllocError>
    ensures { OnOk result (page.new ≡ page.old ++ render (number_cell number)) }
{
    note.clear();
    note.number(number)?;
    leaf(page, Element::Td, b"i n", note.bytes())
}

/// Writes the cell of a payment's card.
#[tactic(auto, unfolding(crate::specs::PageTables::card_cell))]
fn card_cell(page: &mut Text, note: &mut Text, card: &Option<Card>) -> Result<(), AllocError>
    ensures { OnOk result (page.new ≡ page.old ++ render (card_cell card.now)) }
{
    note.clear();
    card_or_nothing(note, card)?;
    leaf(page, Element::Td, b"ca", note.bytes())
}

/// Writes how a payment ended.
#[tactic(auto, unfolding(crate::specs::PageTables::payment_end))]
fn payment_end(
    page: &mut Text,
    note: &mut Text,
    entry: &Option<Entry>,
    row: &OrderRow,
) -> Result<(), AllocError>
    ensures { OnOk result (page.new ≡ page.old ++ render (payment_end entry.now row.now)) }
{
    note.clear();
    payment_text(note, entry, row)?;
    outcome_cell(page, payment_tone(entry, &row.outcome), note.bytes())
}

/// Writes the row of a payment.
#[tactic(auto, unfolding(crate::specs::PageTables::payment_row))]
fn payment_row(
    page: &mut Text,
    note: &mut Text,
    timed: bool,
    decimals: Decimals,
    number: usize,
    entry: &Option<Entry>,
    row: &OrderRow,
    amount: Amount,
) -> Result<(), AllocError>
    ensures { OnOk result (page.new ≡ page.old ++ render (payment_row timed decimals number entry.now row.now amount)) }
{
    start(
        page,
        Element::Tr,
        payment_tone(entry, &row.outcome).row_class(),
        None,
    )?;
    number_cell(page, note, number)?;
    time_cell(page, note, timed, &row.time)?;
    amount_cell(page, note, decimals, &Some(amount))?;
    trace_cell(page, note, &trace_by(&row.outcome, &row.approval))?;
    receipt_cell(page, note, &receipt_by(&row.outcome, &row.approval))?;
    card_cell(page, note, &row.card)?;
    payment_end(page, note, entry, row)?;
    lines_cell(page, note, row.first, row.last)?;
    end(page, Element::Tr)
}

/// Writes the row of an order, if it is a payment.
#[tactic(auto, unfolding(crate::specs::PageTables::payment_of))]
fn payment_of(
    page: &mut Text,
    note: &mut Text,
    timed: bool,
    decimals: Decimals,
    book: &[Entry],
    place: &Place,
    row: &OrderRow,
) -> Result<(), AllocError>
    ensures { OnOk result (page.new ≡ page.old
        ++ render (payment_of timed decimals book.now place.now row.now row.now.order)) }
{
    match &row.order {
        Sent::Pay(amount) => {
            let entry = entry_at(book, place.entry);
            let number = place.payment.unwrap_or(0);
            payment_row(page, note, timed, decimals, number, &entry, row, *amount)
        }
        _ => Ok(()),
    }
}

/// Writes the rows of the payments.
fn payment_rows(
    page: &mut Text,
    note: &mut Text,
    timed: bool,
    decimals: Decimals,
    book: &[Entry],
    rows: &[OrderRow],
) -> Result<(), AllocError>
    ensures { OnOk result (page.new ≡ page.old
        ++ render (payment_rows timed decimals book.now no_counts rows.now)) }
{
    let mut counts = Counts::none();
    let mut rest = rows;
    'rows: while let [row, later @ ..] = rest {
        payment_of(page, note, timed, decimals, book, &counts.place(row), row)?;
        counts = counts.after(row);
        rest = later;
    }
    Ok(())
}

/// Writes the table of the payments.
fn payments_table(
    page: &mut Text,
    note: &mut Text,
    decimals: Decimals,
    book: &[Entry],
    rows: &[OrderRow],
) -> Result<(), AllocError>
    ensures { OnOk result (page.new ≡ page.old ++ render (payments_table decimals book.now rows.now)) }
{
    let timed = have_times(rows);
    table_start(page)?;
    payment_columns(page, timed)?;
    table_body(page)?;
    payment_rows(page, note, timed, decimals, book, rows)?;
    table_end(page)
}

/// Writes the table of the payments, or that there are none.
fn payments_or_none(
    page: &mut Text,
    note: &mut Text,
    decimals: Decimals,
    book: &[Entry],
    rows: &[OrderRow],
) -> Result<(), AllocError>
    ensures { OnOk result (page.new ≡ page.old ++ render (payments_or_none decimals book.now rows.now)) }
{
    if payments_in(rows) == 0 {
        return leaf(
            page,
            Element::P,
            b"none",
            b"There is no payment in this trace.",
        );
    }
    payments_table(page, note, decimals, book, rows)
}

/// Writes the section of the payments.
#[tactic(auto, unfolding(crate::specs::PageTables::payments_section))]
pub(crate) fn payments_section(
    page: &mut Text,
    note: &mut Text,
    decimals: Decimals,
    books: &DayBooks,
) -> Result<(), AllocError>
    ensures { OnOk result (page.new ≡ page.old ++ render (payments_section decimals books.now)) }
{
    leaf(page, Element::H2, b"", b"Payments")?;
    let book = books.book.as_slice();
    payments_or_none(page, note, decimals, book, books.orders.as_slice())
}
