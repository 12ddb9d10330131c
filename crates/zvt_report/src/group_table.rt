//! Writes the totals by card of an end of day.
ghost use Rattle.std.specs.Prelude.{◌≡◌, ◌++◌, OnOk};
ghost use Rattle.std.specs.List.{list_any};
ghost use Rattle.zvt_report.specs.CardTotals.{is_used};
ghost use Rattle.zvt_report.specs.GroupTable.{group_line, group_lines, groups_part, groups_table, headed_lines};
ghost use Rattle.zvt_report.specs.GroupTable.{line_if_used};

use crate::amounts::amount_column;
use crate::card_totals::{CardGroup, CardTotals, is_used};
use crate::columns::{left, right};
use crate::currencies::Decimals;
use std::alloc::AllocError;
use zvt_text::Text;

/// The width of the column of names.
const NAME: usize = 18;

/// The width of the column of counts.
const COUNT: usize = 5;

/// Writes the line of a group.
#[tactic(auto, unfolding(crate::specs::GroupTable::group_line))]
fn group_line(text: &mut Text, decimals: Decimals, group: &CardGroup) -> Result<(), AllocError>
    ensures { OnOk result (text.new ≡ text.old ++ group_line decimals group.now) }
{
    text.word(b"  ")?;
    left(text, NAME, group.brand.name().as_bytes())?;
    right(text, COUNT, b"", u128::from(group.count))?;
    amount_column(text, decimals, b"", u128::from(group.sum))?;
    text.push(b'\n')
}

/// Writes the line of a group, if it has a payment or a sum.
fn line_if_used(text: &mut Text, decimals: Decimals, group: &CardGroup) -> Result<(), AllocError>
    ensures { OnOk result (text.new ≡ text.old ++ line_if_used decimals group.now) }
{
    if is_used(group) {
        group_line(text, decimals, group)
    } else {
        Ok(())
    }
}

/// Writes the lines of the groups.
fn group_lines(text: &mut Text, decimals: Decimals, groups: &[CardGroup]) -> Result<(), AllocError>
    ensures { OnOk result (text.new ≡ text.old ++ group_lines decimals groups.now) }
{
    for group in groups {
        line_if_used(text, decimals, group)?;
    }
    Ok(())
}

/// Whether a group has a payment or a sum.
pub(crate) fn any_used(groups: &[CardGroup]) -> bool
    ensures { result ≡ list_any is_used groups.now }
{
    groups.iter().any(|group| is_used(group))
}

/// Writes the heading and the lines.
#[tactic(auto, unfolding(crate::specs::GroupTable::headed_lines))]
fn headed_lines(text: &mut Text, decimals: Decimals, groups: &[CardGroup]) -> Result<(), AllocError>
    ensures { OnOk result (text.new ≡ text.old ++ headed_lines decimals groups.now) }
{
    text.word(b"\n  Terminal by card  Count         Amount\n")?;
    group_lines(text, decimals, groups)
}

/// Writes the table, if a group has a payment or a sum.
fn groups_table(text: &mut Text, decimals: Decimals, groups: &[CardGroup]) -> Result<(), AllocError>
    ensures { OnOk result (text.new ≡ text.old ++ groups_table decimals groups.now) }
{
    if !any_used(groups) {
        return Ok(());
    }
    headed_lines(text, decimals, groups)
}

/// Writes the table of these totals, if there are any.
#[tactic(auto, unfolding(crate::specs::GroupTable::groups_part))]
pub(crate) fn groups_part(
    text: &mut Text,
    decimals: Decimals,
    totals: &Option<CardTotals>,
) -> Result<(), AllocError>
    ensures { OnOk result (text.new ≡ text.old ++ groups_part decimals totals.now) }
{
    match totals {
        Some(totals) => groups_table(text, decimals, &totals.groups),
        None => Ok(()),
    }
}
