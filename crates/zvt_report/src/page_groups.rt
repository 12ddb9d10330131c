//! Writes the tables with the totals by card of the ends of day to a page.
ghost use Rattle.std.specs.Prelude.{◌≡◌, ◌++◌, OnOk};
ghost use Rattle.zvt_page.specs.Html.{render};
ghost use Rattle.zvt_report.specs.PageGroups.{group_columns, group_row, group_rows, group_tables, groups_table};
ghost use Rattle.zvt_report.specs.PageGroups.{groups_title, row_if_used, table_by, table_of, titled_table};

use crate::amounts::amount;
use crate::card_totals::{CardGroup, CardTotals, is_used};
use crate::closings::Closing;
use crate::currencies::Decimals;
use crate::differing::closing_at;
use crate::group_table::any_used;
use crate::page_parts::{column, from_to, table_body, table_end, table_start};
use crate::rows::OrderRow;
use std::alloc::AllocError;
use zvt_page::{Element, end, leaf, start};
use zvt_text::Text;

/// Writes the headings of a table.
#[tactic(auto, unfolding(crate::specs::PageGroups::group_columns))]
fn group_columns(page: &mut Text) -> Result<(), AllocError>
    ensures { OnOk result (page.new ≡ page.old ++ render group_columns) }
{
    column(page, b"ca", b"Card")?;
    column(page, b"n", b"Count")?;
    column(page, b"n am", b"Amount")
}

/// Writes the row of a group.
#[tactic(auto, unfolding(crate::specs::PageGroups::group_row))]
fn group_row(
    page: &mut Text,
    note: &mut Text,
    decimals: Decimals,
    group: &CardGroup,
) -> Result<(), AllocError>
    ensures { OnOk result (page.new ≡ page.old ++ render (group_row decimals group.now)) }
{
    start(page, Element::Tr, b"", None)?;
    leaf(page, Element::Td, b"ca", group.brand.name().as_bytes())?;
    note.clear();
    note.number(u128::from(group.count))?;
    leaf(page, Element::Td, b"n", note.bytes())?;
    note.clear();
    amount(note, decimals, u128::from(group.sum))?;
    leaf(page, Element::Td, b"n am", note.bytes())?;
    end(page, Element::Tr)
}

/// Writes the row of a group, if it has a payment or a sum.
fn row_if_used(
    page: &mut Text,
    note: &mut Text,
    decimals: Decimals,
    group: &CardGroup,
) -> Result<(), AllocError>
    ensures { OnOk result (page.new ≡ page.old ++ render (row_if_used decimals group.now)) }
{
    if is_used(group) {
        group_row(page, note, decimals, group)
    } else {
        Ok(())
    }
}

/// Writes the rows of the groups that have a payment or a sum.
fn group_rows(
    page: &mut Text,
    note: &mut Text,
    decimals: Decimals,
    groups: &[CardGroup],
) -> Result<(), AllocError>
    ensures { OnOk result (page.new ≡ page.old ++ render (group_rows decimals groups.now)) }
{
    let mut rest = groups;
    'groups: while let [group, later @ ..] = rest {
        row_if_used(page, note, decimals, group)?;
        rest = later;
    }
    Ok(())
}

/// Writes the heading of a table, which names the lines of the end of day.
#[tactic(auto, unfolding(crate::specs::PageGroups::groups_title))]
fn groups_title(page: &mut Text, note: &mut Text, first: u64, last: u64) -> Result<(), AllocError>
    ensures { OnOk result (page.new ≡ page.old ++ render (groups_title first last)) }
{
    note.clear();
    note.word(b"Terminal by card, lines ")?;
    from_to(note, first, last)?;
    leaf(page, Element::H3, b"", note.bytes())
}

/// Writes a table.
fn groups_table(
    page: &mut Text,
    note: &mut Text,
    decimals: Decimals,
    groups: &[CardGroup],
) -> Result<(), AllocError>
    ensures { OnOk result (page.new ≡ page.old ++ render (groups_table decimals groups.now)) }
{
    table_start(page)?;
    group_columns(page)?;
    table_body(page)?;
    group_rows(page, note, decimals, groups)?;
    table_end(page)
}

/// Writes a table under its heading, if a group has a payment or a sum.
fn titled_table(
    page: &mut Text,
    note: &mut Text,
    decimals: Decimals,
    row: &OrderRow,
    groups: &[CardGroup],
) -> Result<(), AllocError>
    ensures { OnOk result (page.new ≡ page.old ++ render (titled_table decimals row.now groups.now)) }
{
    if !any_used(groups) {
        return Ok(());
    }
    groups_title(page, note, row.first, row.last)?;
    groups_table(page, note, decimals, groups)
}

/// Writes the table of these totals, if there are any.
fn table_by(
    page: &mut Text,
    note: &mut Text,
    decimals: Decimals,
    row: &OrderRow,
    totals: &Option<CardTotals>,
) -> Result<(), AllocError>
    ensures { OnOk result (page.new ≡ page.old ++ render (table_by decimals row.now totals.now)) }
{
    match totals {
        Some(totals) => titled_table(page, note, decimals, row, &totals.groups),
        None => Ok(()),
    }
}

/// Writes the table of an end of day, if the order is one and has totals by card.
fn table_of(
    page: &mut Text,
    note: &mut Text,
    decimals: Decimals,
    row: &OrderRow,
    closing: &Option<Closing>,
) -> Result<(), AllocError>
    ensures { OnOk result (page.new ≡ page.old ++ render (table_of decimals row.now closing.now)) }
{
    match closing {
        Some(closing) => table_by(page, note, decimals, row, &closing.totals),
        None => Ok(()),
    }
}

/// Writes the tables of the ends of day among these orders.
pub(crate) fn group_tables(
    page: &mut Text,
    note: &mut Text,
    decimals: Decimals,
    closings: &[Option<Closing>],
    rows: &[OrderRow],
) -> Result<(), AllocError>
    ensures { OnOk result (page.new ≡ page.old ++ render (group_tables decimals closings.now 0 rows.now)) }
{
    let mut place = 0;
    let mut rest = rows;
    'rows: while let [row, later @ ..] = rest {
        table_of(page, note, decimals, row, &closing_at(closings, place))?;
        place += 1;
        rest = later;
    }
    Ok(())
}
