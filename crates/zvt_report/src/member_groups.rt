//! Writes the totals by card.
ghost use Rattle.std.specs.Prelude.{◌≡◌, ◌++◌, false, OnOk};
ghost use Rattle.serde_json.specs.Written.{comma_if, compact_text, items_text};
ghost use Rattle.zvt_report.specs.GroupObjects.{group_items, group_value, group_words, groups_value, named_words};

use crate::card_totals::{CardBrand, CardGroup, is_used};
use crate::members::write_comma;
use std::alloc::AllocError;
use zvt_text::Text;

/// Writes what comes before the count of a group.
#[tactic(auto, unfolding(crate::specs::GroupObjects::named_words))]
fn named_words(text: &mut Text, brand: CardBrand) -> Result<(), AllocError>
    ensures { OnOk result (text.new ≡ text.old ++ named_words brand) }
{
    text.word(b"{\"card\":\"")?;
    text.word(brand.name().as_bytes())?;
    text.word(b"\",\"count\":")
}

/// Writes the words of a group.
fn group_words(text: &mut Text, group: &CardGroup) -> Result<(), AllocError>
    ensures { OnOk result (text.new ≡ text.old ++ group_words group.now) }
{
    named_words(text, group.brand)?;
    text.number(group.count)?;
    text.word(b",\"sum\":")?;
    text.number(group.sum)?;
    text.word(b"}")
}

/// Writes a group, with a comma before it if there is an earlier one.
fn write_group(text: &mut Text, later: bool, group: &CardGroup) -> Result<(), AllocError>
    ensures { OnOk result (text.new ≡ text.old ++ (comma_if later ++ compact_text (group_value group.now))) }
{
    write_comma(text, later)?;
    group_words(text, group)
}

/// Writes the groups that have a payment or a sum, and the end of the array.
fn write_items(text: &mut Text, groups: &[CardGroup]) -> Result<(), AllocError>
    ensures { OnOk result (text.new ≡ text.old ++ items_text false (group_items groups.now)) }
{
    let mut later = false;
    let mut rest = groups;
    'groups: while let [group, after @ ..] = rest {
        if is_used(group) {
            write_group(text, later, group)?;
            later = true;
        }
        rest = after;
    }
    text.push(b']')
}

/// Writes the groups that have a payment or a sum as an array.
pub(crate) fn write_groups(text: &mut Text, groups: &[CardGroup]) -> Result<(), AllocError>
    ensures { OnOk result (text.new ≡ text.old ++ compact_text (groups_value groups.now)) }
{
    text.push(b'[')?;
    write_items(text, groups)
}
