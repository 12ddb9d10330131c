//! Writes the table of the ends of day that closed a day to a page.
ghost use Rattle.std.specs.Prelude.{◌≡◌, ◌++◌, is_some, OnOk};
ghost use Rattle.std.specs.List.{list_any};
ghost use Rattle.zvt_page.specs.Html.{render};
ghost use Rattle.zvt_report.specs.PageClosings.{close_columns, closing_of, closing_row, closing_rows, closings_section};
ghost use Rattle.zvt_report.specs.PageClosings.{closings_table, gap_text, less_text, titled_closings};
ghost use Rattle.zvt_report.specs.PageParts.{amount_or_nothing};

use crate::amounts::amount;
use crate::closings::Closing;
use crate::currencies::Decimals;
use crate::differing::closing_at;
use crate::page_groups::group_tables;
use crate::page_parts::{column, lines_cell, table_body, table_end, table_start};
use crate::rows::OrderRow;
use std::alloc::AllocError;
use zvt_page::{Element, end, leaf, start};
use zvt_text::Text;

/// Writes the headings of the table.
#[tactic(auto, unfolding(crate::specs::PageClosings::close_columns))]
fn close_columns(page: &mut Text) -> Result<(), AllocError>
    ensures { OnOk result (page.new ≡ page.old ++ render close_columns) }
{
    column(page, b"n am", b"Terminal")?;
    column(page, b"n am", b"Book")?;
    column(page, b"n am", b"Difference")?;
    column(page, b"ln", b"Lines")
}

/// Writes a sum, if there is one.
fn sum_or_nothing(text: &mut Text, decimals: Decimals, sum: Option<u128>) -> Result<(), AllocError>
    ensures { OnOk result (text.new ≡ text.old ++ amount_or_nothing decimals sum) }
{
    match sum {
        Some(sum) => amount(text, decimals, sum),
        None => Ok(()),
    }
}

/// Writes the first sum less the second one.
fn less_text(text: &mut Text, decimals: Decimals, more: u128, less: u128) -> Result<(), AllocError>
    ensures { OnOk result (text.new ≡ text.old ++ less_text decimals more less) }
{
    if less <= more {
        amount(text, decimals, more - less)
    } else {
        text.push(b'-')?;
        amount(text, decimals, less - more)
    }
}

/// Writes how much more the terminal states than the book has.
fn gap_text(
    text: &mut Text,
    decimals: Decimals,
    booked: u128,
    covered: Option<u128>,
) -> Result<(), AllocError>
    ensures { OnOk result (text.new ≡ text.old ++ gap_text decimals booked covered) }
{
    match covered {
        Some(covered) => {
            if covered == booked {
                return text.word(b"none");
            }
            less_text(text, decimals, covered, booked)
        }
        None => Ok(()),
    }
}

/// Writes the row of an end of day.
#[tactic(auto, unfolding(crate::specs::PageClosings::closing_row))]
fn closing_row(
    page: &mut Text,
    note: &mut Text,
    decimals: Decimals,
    row: &OrderRow,
    closing: &Closing,
) -> Result<(), AllocError>
    ensures { OnOk result (page.new ≡ page.old ++ render (closing_row decimals row.now closing.now)) }
{
    start(page, Element::Tr, b"", None)?;
    note.clear();
    sum_or_nothing(note, decimals, closing.stated)?;
    leaf(page, Element::Td, b"n am", note.bytes())?;
    note.clear();
    less_text(note, decimals, closing.booked, closing.taken_back)?;
    leaf(page, Element::Td, b"n am", note.bytes())?;
    note.clear();
    gap_text(note, decimals, closing.booked, closing.covered)?;
    leaf(page, Element::Td, b"n am", note.bytes())?;
    lines_cell(page, note, row.first, row.last)?;
    end(page, Element::Tr)
}

/// Writes the row of an order, if it closed a day.
fn closing_of(
    page: &mut Text,
    note: &mut Text,
    decimals: Decimals,
    row: &OrderRow,
    closing: &Option<Closing>,
) -> Result<(), AllocError>
    ensures { OnOk result (page.new ≡ page.old ++ render (closing_of decimals row.now closing.now)) }
{
    match closing {
        Some(closing) => closing_row(page, note, decimals, row, closing),
        None => Ok(()),
    }
}

/// Writes the rows.
fn closing_rows(
    page: &mut Text,
    note: &mut Text,
    decimals: Decimals,
    closings: &[Option<Closing>],
    rows: &[OrderRow],
) -> Result<(), AllocError>
    ensures { OnOk result (page.new ≡ page.old ++ render (closing_rows decimals closings.now 0 rows.now)) }
{
    let mut place = 0;
    let mut rest = rows;
    'rows: while let [row, later @ ..] = rest {
        closing_of(page, note, decimals, row, &closing_at(closings, place))?;
        place += 1;
        rest = later;
    }
    Ok(())
}

/// Writes the table.
fn closings_table(
    page: &mut Text,
    note: &mut Text,
    decimals: Decimals,
    closings: &[Option<Closing>],
    rows: &[OrderRow],
) -> Result<(), AllocError>
    ensures { OnOk result (page.new ≡ page.old ++ render (closings_table decimals closings.now rows.now)) }
{
    table_start(page)?;
    close_columns(page)?;
    table_body(page)?;
    closing_rows(page, note, decimals, closings, rows)?;
    table_end(page)
}

/// Returns whether an order closed a day.
fn has_closing(closings: &[Option<Closing>]) -> bool
    ensures { result ≡ list_any is_some closings.now }
{
    closings.iter().any(|closing| closing.is_some())
}

/// Writes the table under its heading, and the totals by card.
fn titled_closings(
    page: &mut Text,
    note: &mut Text,
    decimals: Decimals,
    closings: &[Option<Closing>],
    rows: &[OrderRow],
) -> Result<(), AllocError>
    ensures { OnOk result (page.new ≡ page.old ++ render (titled_closings decimals closings.now rows.now)) }
{
    leaf(page, Element::H2, b"", b"End of day")?;
    closings_table(page, note, decimals, closings, rows)?;
    group_tables(page, note, decimals, closings, rows)
}

/// Writes the table under its heading, and the totals by card, if an order closed a day.
#[tactic(auto, unfolding(crate::specs::PageClosings::closings_section))]
pub(crate) fn closings_section(
    page: &mut Text,
    note: &mut Text,
    decimals: Decimals,
    closings: &[Option<Closing>],
    rows: &[OrderRow],
) -> Result<(), AllocError>
    ensures { OnOk result (page.new ≡ page.old ++ render (closings_section decimals closings.now rows.now)) }
{
    if !has_closing(closings) {
        return Ok(());
    }
    titled_closings(page, note, decimals, closings, rows)
}
