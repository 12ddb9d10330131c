//! Writes the ends of day that closed a day.
ghost use Rattle.std.specs.Prelude.{◌≡◌, ◌++◌, OnOk};
ghost use Rattle.zvt_report.specs.CloseTable.{book_line, closing_if, closing_text, closings_text, difference_column};
ghost use Rattle.zvt_report.specs.CloseTable.{differs_line, explained_line, line_of, one_order, receipts_part};
ghost use Rattle.zvt_report.specs.CloseTable.{terminal_line, three_orders, two_orders};

use crate::amounts::amount_column;
use crate::card_totals::CardTotals;
use crate::closings::Closing;
use crate::currencies::Decimals;
use crate::differing::closing_at;
use crate::explaining::Explained;
use crate::group_table::groups_part;
use crate::look_list::lines_part;
use crate::rows::OrderRow;
use std::alloc::AllocError;
use zvt_text::{Text, hexadecimal};

/// Writes the first sum less the second one.
#[tactic(auto, unfolding(crate::specs::CloseTable::difference_column))]
fn difference_column(
    text: &mut Text,
    decimals: Decimals,
    more: u128,
    less: u128,
) -> Result<(), AllocError>
    ensures { OnOk result (text.new ≡ text.old ++ difference_column decimals more less) }
{
    if less <= more {
        amount_column(text, decimals, b"", more - less)
    } else {
        amount_column(text, decimals, b"-", less - more)
    }
}

/// Writes the first and the last receipt number, if there are any.
#[tactic(auto, unfolding(crate::specs::CloseTable::receipts_part))]
fn receipts_part(text: &mut Text, totals: &Option<CardTotals>) -> Result<(), AllocError>
    ensures { OnOk result (text.new ≡ text.old ++ receipts_part totals.now) }
{
    match totals {
        Some(totals) => {
            text.word(b"  receipts ")?;
            hexadecimal(text, &totals.first)?;
            text.word(b" to ")?;
            hexadecimal(text, &totals.last)
        }
        None => Ok(()),
    }
}

/// Writes the line of the terminal's total, if it states one.
#[tactic(auto, unfolding(crate::specs::CloseTable::terminal_line))]
fn terminal_line(
    text: &mut Text,
    decimals: Decimals,
    totals: &Option<CardTotals>,
    stated: Option<u128>,
) -> Result<(), AllocError>
    ensures { OnOk result (text.new ≡ text.old ++ terminal_line decimals totals.now stated) }
{
    match stated {
        Some(stated) => {
            text.word(b"  terminal  ")?;
            amount_column(text, decimals, b"", stated)?;
            receipts_part(text, totals)?;
            text.push(b'\n')
        }
        None => Ok(()),
    }
}

/// Writes the line of the book.
#[tactic(auto, unfolding(crate::specs::CloseTable::book_line))]
fn book_line(
    text: &mut Text,
    decimals: Decimals,
    booked: u128,
    taken_back: u128,
) -> Result<(), AllocError>
    ensures { OnOk result (text.new ≡ text.old ++ book_line decimals booked taken_back) }
{
    text.word(b"  book      ")?;
    difference_column(text, decimals, booked, taken_back)?;
    text.push(b'\n')
}

/// Writes the line of the difference, if there is one.
#[tactic(auto, unfolding(crate::specs::CloseTable::differs_line))]
fn differs_line(
    text: &mut Text,
    decimals: Decimals,
    booked: u128,
    covered: Option<u128>,
) -> Result<(), AllocError>
    ensures { OnOk result (text.new ≡ text.old ++ differs_line decimals booked covered) }
{
    match covered {
        Some(covered) => {
            if covered == booked {
                return Ok(());
            }
            text.word(b"  differs   ")?;
            difference_column(text, decimals, covered, booked)?;
            text.push(b'\n')
        }
        None => Ok(()),
    }
}

/// Returns the line at which the order with this index begins.
fn line_of(rows: &[OrderRow], order: usize) -> u64
    ensures { result ≡ line_of rows.now order }
{
    match rows.get(order) {
        Some(row) => row.first,
        None => 0,
    }
}

/// Writes the line of the order that explains a difference.
fn one_order(text: &mut Text, a: u64) -> Result<(), AllocError>
    ensures { OnOk result (text.new ≡ text.old ++ one_order a) }
{
    text.word(b"  explained by the order of line ")?;
    text.number(a)?;
    text.word(b"\n")
}

/// Writes the lines of the two orders that explain a difference.
fn two_orders(text: &mut Text, a: u64, b: u64) -> Result<(), AllocError>
    ensures { OnOk result (text.new ≡ text.old ++ two_orders a b) }
{
    text.word(b"  explained by the orders of lines ")?;
    text.number(a)?;
    text.word(b" and ")?;
    text.number(b)?;
    text.word(b"\n")
}

/// Writes the lines of the three orders that explain a difference.
fn three_orders(text: &mut Text, a: u64, b: u64, c: u64) -> Result<(), AllocError>
    ensures { OnOk result (text.new ≡ text.old ++ three_orders a b c) }
{
    text.word(b"  explained by the orders of lines ")?;
    text.number(a)?;
    text.word(b", ")?;
    text.number(b)?;
    text.word(b" and ")?;
    text.number(c)?;
    text.word(b"\n")
}

/// Writes which orders explain a difference, if any do.
fn explained_line(
    text: &mut Text,
    rows: &[OrderRow],
    explained: &Explained,
) -> Result<(), AllocError>
    ensures { OnOk result (text.new ≡ text.old ++ explained_line rows.now explained.now) }
{
    match explained {
        Explained::One(a) => one_order(text, line_of(rows, *a)),
        Explained::Two(a, b) => two_orders(text, line_of(rows, *a), line_of(rows, *b)),
        Explained::Three(a, b, c) => three_orders(
            text,
            line_of(rows, *a),
            line_of(rows, *b),
            line_of(rows, *c),
        ),
        Explained::Nothing | Explained::Empty | Explained::Several => Ok(()),
    }
}

/// Writes an end of day that closed a day. `all` are the rows of all orders.
#[tactic(auto, unfolding(crate::specs::CloseTable::closing_text))]
fn closing_text(
    text: &mut Text,
    decimals: Decimals,
    all: &[OrderRow],
    row: &OrderRow,
    closing: &Closing,
) -> Result<(), AllocError>
    ensures { OnOk result (text.new ≡ text.old ++ closing_text decimals all.now row.now closing.now) }
{
    text.word(b"\nEnd of day")?;
    lines_part(text, row)?;
    terminal_line(text, decimals, &closing.totals, closing.stated)?;
    book_line(text, decimals, closing.booked, closing.taken_back)?;
    differs_line(text, decimals, closing.booked, closing.covered)?;
    explained_line(text, all, &closing.explained)
}

/// Writes an end of day and its totals by card, if it closed a day.
#[tactic(auto, unfolding(crate::specs::CloseTable::closing_if))]
fn closing_if(
    text: &mut Text,
    decimals: Decimals,
    all: &[OrderRow],
    row: &OrderRow,
    closing: &Option<Closing>,
) -> Result<(), AllocError>
    ensures { OnOk result (text.new ≡ text.old ++ closing_if decimals all.now row.now closing.now) }
{
    match closing {
        Some(closing) => {
            closing_text(text, decimals, all, row, closing)?;
            groups_part(text, decimals, &closing.totals)
        }
        None => Ok(()),
    }
}

/// Writes each end of day that closed a day, after an empty line.
pub(crate) fn closings_text(
    text: &mut Text,
    decimals: Decimals,
    closings: &[Option<Closing>],
    rows: &[OrderRow],
) -> Result<(), AllocError>
    ensures { OnOk result (text.new ≡ text.old ++ closings_text decimals closings.now rows.now) }
{
    let mut place = 0;
    let mut rest = rows;
    'rows: while let [row, later @ ..] = rest {
        closing_if(text, decimals, rows, row, &closing_at(closings, place))?;
        place += 1;
        rest = later;
    }
    Ok(())
}
