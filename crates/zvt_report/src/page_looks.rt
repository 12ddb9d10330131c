//! Writes the orders that a person should look at to a page.
ghost use Rattle.std.specs.Prelude.{◌≡◌, ◌++◌, OnOk};
ghost use Rattle.zvt_page.specs.Html.{render};
ghost use Rattle.zvt_report.specs.PageEvents.{line_link};
ghost use Rattle.zvt_report.specs.PageLooks.{account_part, advice_part, item, item_of, items, items_or_none};
ghost use Rattle.zvt_report.specs.PageLooks.{lines_part, lines_text, listed_item, listed_items};
ghost use Rattle.zvt_report.specs.PageLooks.{look_heading, looks_section, title_part};

use crate::advices::advice;
use crate::books::DayBooks;
use crate::cases::{Case, Look};
use crate::closings::Closing;
use crate::currencies::Decimals;
use crate::facts::{Facts, facts_of};
use crate::finding_list::is_nothing;
use crate::findings::Finding;
use crate::look_list::is_listed;
use crate::page_events::{has_line, link_start};
use crate::page_findings::finding_items;
use crate::page_parts::from_to;
use crate::page_weights::{weight_class, weight_word};
use crate::rows::{OrderMessage, OrderRow};
use crate::sentences::account;
use crate::times::time_first;
use crate::titles::title;
use std::alloc::AllocError;
use zvt_page::{Attribute, Element, end, escaped, leaf, start};
use zvt_text::Text;
use zvt_till::Entry;

/// Writes the title of an order.
#[tactic(auto, unfolding(crate::specs::PageLooks::title_part))]
fn title_part(
    page: &mut Text,
    note: &mut Text,
    decimals: Decimals,
    facts: &Facts,
    case: Case,
) -> Result<(), AllocError>
    ensures { OnOk result (page.new ≡ page.old ++ render (title_part decimals facts.now case)) }
{
    note.clear();
    title(note, decimals, facts, case)?;
    leaf(page, Element::H3, b"", note.bytes())
}

/// Writes the time and the lines of an order.
fn lines_text(text: &mut Text, row: &OrderRow) -> Result<(), AllocError>
    ensures { OnOk result (text.new ≡ text.old ++ lines_text row.now) }
{
    time_first(text, &row.time)?;
    text.word(b"lines ")?;
    from_to(text, row.first, row.last)
}

/// Writes a link to the first line of an order, with its time and its lines.
#[tactic(auto, unfolding(crate::specs::PageEvents::line_link))]
fn lines_link(page: &mut Text, note: &mut Text, row: &OrderRow) -> Result<(), AllocError>
    ensures { OnOk result (page.new ≡ page.old ++ render (line_link row.now.first (lines_text row.now))) }
{
    link_start(page, note, row.first)?;
    note.clear();
    lines_text(note, row)?;
    escaped(page, note.bytes())?;
    end(page, Element::A)
}

/// Writes the time and the lines of an order, with a link if its first line is shown.
#[tactic(auto, unfolding(crate::specs::PageEvents::lines_at, crate::specs::PageLooks::lines_part))]
fn lines_part(
    page: &mut Text,
    note: &mut Text,
    shown: &[u64],
    row: &OrderRow,
) -> Result<(), AllocError>
    ensures { OnOk result (page.new ≡ page.old ++ render (lines_part shown.now row.now)) }
{
    if has_line(shown, row.first) {
        return lines_link(page, note, row);
    }
    note.clear();
    lines_text(note, row)?;
    leaf(page, Element::Span, b"at", note.bytes())
}

/// Writes what happened to an order.
#[tactic(auto, unfolding(crate::specs::PageLooks::account_part))]
fn account_part(
    page: &mut Text,
    note: &mut Text,
    decimals: Decimals,
    facts: &Facts,
    case: Case,
) -> Result<(), AllocError>
    ensures { OnOk result (page.new ≡ page.old ++ render (account_part decimals facts.now case)) }
{
    note.clear();
    account(note, decimals, facts, case)?;
    leaf(page, Element::P, b"why", note.bytes())
}

/// Writes what to do about an order.
#[tactic(auto, unfolding(crate::specs::PageLooks::advice_part))]
fn advice_part(
    page: &mut Text,
    note: &mut Text,
    decimals: Decimals,
    facts: &Facts,
    case: Case,
) -> Result<(), AllocError>
    ensures { OnOk result (page.new ≡ page.old ++ render (advice_part decimals facts.now case)) }
{
    note.clear();
    advice(note, decimals, facts, case)?;
    leaf(page, Element::P, b"do", note.bytes())
}

/// Writes an order in this case.
#[tactic(auto, unfolding(crate::specs::PageLooks::item))]
fn item(
    page: &mut Text,
    note: &mut Text,
    shown: &[u64],
    decimals: Decimals,
    facts: &Facts,
    case: Case,
) -> Result<(), AllocError>
    ensures { OnOk result (page.new ≡ page.old ++ render (item shown.now decimals facts.now case)) }
{
    let weight = case.weight();
    start(page, Element::Li, weight_class(weight), None)?;
    leaf(page, Element::Span, b"sev", weight_word(weight))?;
    title_part(page, note, decimals, facts, case)?;
    lines_part(page, note, shown, &facts.row)?;
    account_part(page, note, decimals, facts, case)?;
    advice_part(page, note, decimals, facts, case)?;
    end(page, Element::Li)
}

/// Writes a look.
#[tactic(auto, unfolding(crate::specs::PageLooks::item_of))]
fn item_of(
    page: &mut Text,
    note: &mut Text,
    shown: &[u64],
    decimals: Decimals,
    book: &[Entry],
    closings: &[Option<Closing>],
    messages: &[OrderMessage],
    rows: &[OrderRow],
    look: &Look,
) -> Result<(), AllocError>
    ensures { OnOk result (page.new ≡ page.old
        ++ render (item_of shown.now decimals book.now closings.now messages.now rows.now look.now)) }
{
    let Some(facts) = facts_of(book, closings, messages, rows, look) else {
        return Ok(());
    };
    item(page, note, shown, decimals, &facts, look.case)
}

/// Writes a look if it is listed in this round.
fn listed_item(
    page: &mut Text,
    note: &mut Text,
    shown: &[u64],
    decimals: Decimals,
    book: &[Entry],
    closings: &[Option<Closing>],
    messages: &[OrderMessage],
    rows: &[OrderRow],
    urgent: bool,
    look: &Look,
) -> Result<(), AllocError>
    ensures { OnOk result (page.new ≡ page.old
        ++ render (listed_item shown.now decimals book.now closings.now messages.now rows.now urgent look.now)) }
{
    if !is_listed(urgent, look.case) {
        return Ok(());
    }
    item_of(
        page, note, shown, decimals, book, closings, messages, rows, look,
    )
}

/// Writes the looks of one round.
fn items(
    page: &mut Text,
    note: &mut Text,
    shown: &[u64],
    decimals: Decimals,
    book: &[Entry],
    closings: &[Option<Closing>],
    messages: &[OrderMessage],
    rows: &[OrderRow],
    urgent: bool,
    looks: &[Look],
) -> Result<(), AllocError>
    ensures { OnOk result (page.new ≡ page.old
        ++ render (items shown.now decimals book.now closings.now messages.now rows.now urgent looks.now)) }
{
    let mut rest = looks;
    'looks: while let [look, later @ ..] = rest {
        listed_item(
            page, note, shown, decimals, book, closings, messages, rows, urgent, look,
        )?;
        rest = later;
    }
    Ok(())
}

/// Writes the list of the looks, the urgent ones first, and of the findings.
#[tactic(auto, unfolding(crate::specs::PageLooks::listed_items))]
fn listed_items(
    page: &mut Text,
    note: &mut Text,
    shown: &[u64],
    decimals: Decimals,
    book: &[Entry],
    closings: &[Option<Closing>],
    messages: &[OrderMessage],
    rows: &[OrderRow],
    looks: &[Look],
    findings: &[Finding],
) -> Result<(), AllocError>
    ensures { OnOk result (page.new ≡ page.old
        ++ render (listed_items shown.now decimals book.now closings.now messages.now rows.now looks.now
        findings.now)) }
{
    start(page, Element::Ol, b"look", None)?;
    items(
        page, note, shown, decimals, book, closings, messages, rows, true, looks,
    )?;
    items(
        page, note, shown, decimals, book, closings, messages, rows, false, looks,
    )?;
    finding_items(page, note, shown, decimals, findings)?;
    end(page, Element::Ol)
}

/// Writes the looks and the findings, or that there are none.
fn items_or_none(
    page: &mut Text,
    note: &mut Text,
    shown: &[u64],
    decimals: Decimals,
    book: &[Entry],
    closings: &[Option<Closing>],
    messages: &[OrderMessage],
    rows: &[OrderRow],
    looks: &[Look],
    findings: &[Finding],
) -> Result<(), AllocError>
    ensures { OnOk result (page.new ≡ page.old
        ++ render (items_or_none shown.now decimals book.now closings.now messages.now rows.now looks.now
        findings.now)) }
{
    if is_nothing(looks, findings) {
        return leaf(
            page,
            Element::P,
            b"none",
            b"Nothing in this trace needs a look.",
        );
    }
    listed_items(
        page, note, shown, decimals, book, closings, messages, rows, looks, findings,
    )
}

/// Writes the heading of the looks.
#[tactic(auto, unfolding(crate::specs::PageLooks::look_heading))]
fn look_heading(page: &mut Text, id: &[u8]) -> Result<(), AllocError>
    ensures { OnOk result (page.new ≡ page.old ++ render (look_heading id.now)) }
{
    start(page, Element::H2, b"", Some((Attribute::Id, id)))?;
    escaped(page, b"Look at these")?;
    end(page, Element::H2)
}

/// Writes the section of the looks and the findings. Links to `id` lead to its heading, and its orders have links to
/// the lines that the dialogue shows.
#[tactic(auto, unfolding(crate::specs::PageLooks::looks_section))]
pub(crate) fn looks_section(
    page: &mut Text,
    note: &mut Text,
    id: &[u8],
    shown: &[u64],
    decimals: Decimals,
    books: &DayBooks,
    closings: &[Option<Closing>],
    messages: &[OrderMessage],
    looks: &[Look],
    findings: &[Finding],
) -> Result<(), AllocError>
    ensures { OnOk result (page.new ≡ page.old
        ++ render (looks_section id.now shown.now decimals books.now closings.now messages.now looks.now
        findings.now)) }
{
    look_heading(page, id)?;
    let book = books.book.as_slice();
    let rows = books.orders.as_slice();
    items_or_none(
        page, note, shown, decimals, book, closings, messages, rows, looks, findings,
    )
}
