//! Writes the report of a trace as a page.
ghost use Rattle.std.specs.Prelude.{◌≡◌, ◌++◌, OnOk};
ghost use Rattle.zvt_page.specs.Html.{render};
ghost use Rattle.zvt_report.specs.Page.{amounts_in, heading, hours_part, page_foot, page_head, page_with, report_page};
ghost use Rattle.zvt_report.specs.Page.{sections, skip_link, unit_words};

use crate::books::DayBooks;
use crate::cases::Look;
use crate::closings::Closing;
use crate::currencies::{Money, decimals_of, money_of};
use crate::findings::Finding;
use crate::heading::{has_head, head_words};
use crate::page_cards::cards;
use crate::page_closings::closings_section;
use crate::page_looks::looks_section;
use crate::page_others::others_section;
use crate::page_tables::payments_section;
use crate::rows::OrderMessage;
use crate::summary::unit;
use crate::text::footer;
use crate::times::{Times, clock_notes};
use std::alloc::{AllocError, Global};
use zvt_bcd::Currency;
use zvt_page::{Attribute, Element, document_end, document_start, end, escaped, leaf, start};
use zvt_text::Text;
use zvt_trace::Tally;

/// Returns the heading of a page about the file of this name. The name is empty if there is no file.
fn heading(name: &[u8]) -> &[u8]
    ensures { result.now ≡ heading name.now }
{
    if name.is_empty() {
        b"Report of a trace"
    } else {
        name
    }
}

/// Returns the words before the unit of the amounts.
fn unit_words(money: &Option<Money>) -> &'static [u8]
    ensures { result.now ≡ unit_words money.now }
{
    match money {
        Some(_) => b"Amounts in",
        None => b"Amounts",
    }
}

/// Writes in which currency the amounts are.
fn amounts_in(text: &mut Text, money: &Option<Money>) -> Result<(), AllocError>
    ensures { OnOk result (text.new ≡ text.old ++ amounts_in money.now) }
{
    text.word(unit_words(money))?;
    unit(text, money)
}

/// Writes the day and the hours of a trace and its terminal, if any of them is known.
fn hours_part(
    page: &mut Text,
    note: &mut Text,
    times: &Times,
    terminal: Option<[u8; 4]>,
) -> Result<(), AllocError>
    ensures { OnOk result (page.new ≡ page.old ++ render (hours_part times.now terminal)) }
{
    if !has_head(times, terminal) {
        return Ok(());
    }
    note.clear();
    head_words(note, times, terminal)?;
    leaf(page, Element::P, b"meta", note.bytes())
}

/// Writes the name of the file, its day, hours and terminal, and in which currency the amounts are.
#[tactic(auto, unfolding(crate::specs::Page::page_head))]
fn page_head(
    page: &mut Text,
    note: &mut Text,
    name: &[u8],
    money: &Option<Money>,
    terminal: Option<[u8; 4]>,
    times: &Times,
) -> Result<(), AllocError>
    ensures { OnOk result (page.new ≡ page.old ++ render (page_head name.now money.now terminal times.now)) }
{
    start(page, Element::Header, b"", None)?;
    leaf(page, Element::H1, b"", heading(name))?;
    hours_part(page, note, times, terminal)?;
    note.clear();
    amounts_in(note, money)?;
    leaf(page, Element::P, b"meta", note.bytes())?;
    end(page, Element::Header)
}

/// Writes how much of the trace was read.
#[tactic(auto, unfolding(crate::specs::Page::page_foot))]
pub(crate) fn page_foot(
    page: &mut Text,
    note: &mut Text,
    tally: Tally,
    times: &Times,
) -> Result<(), AllocError>
    ensures { OnOk result (page.new ≡ page.old ++ render (page_foot tally times.now)) }
{
    start(page, Element::Footer, b"", None)?;
    note.clear();
    footer(note, tally)?;
    clock_notes(note, times)?;
    leaf(page, Element::P, b"", note.bytes())?;
    end(page, Element::Footer)
}

/// Writes a link to the orders that a person should look at, for readers without a mouse.
#[tactic(auto, unfolding(crate::specs::Page::skip_link))]
fn skip_link(page: &mut Text) -> Result<(), AllocError>
    ensures { OnOk result (page.new ≡ page.old ++ render skip_link) }
{
    start(page, Element::A, b"skip", Some((Attribute::Href, b"#look")))?;
    escaped(page, b"Skip to what needs a look")?;
    end(page, Element::A)
}

/// Writes the sections of a page, up to the dialogue, which shows these lines. Links to `id` lead to the looks.
#[tactic(auto, unfolding(crate::specs::Page::sections))]
pub(crate) fn sections(
    page: &mut Text,
    note: &mut Text,
    id: &[u8],
    shown: &[u64],
    name: &[u8],
    money: &Option<Money>,
    terminal: Option<[u8; 4]>,
    times: &Times,
    books: &DayBooks,
    messages: &[OrderMessage],
    closings: &[Option<Closing>],
    looks: &[Look],
    findings: &[Finding],
) -> Result<(), AllocError>
    ensures { OnOk result (page.new ≡ page.old
        ++ render (sections id.now shown.now name.now money.now terminal times.now books.now messages.now closings.now
        looks.now findings.now)) }
{
    let decimals = decimals_of(money);
    page_head(page, note, name, money, terminal, times)?;
    cards(page, note, decimals, books, messages)?;
    looks_section(
        page, note, id, shown, decimals, books, closings, messages, looks, findings,
    )?;
    payments_section(page, note, decimals, books)?;
    others_section(page, note, decimals, books, messages)?;
    closings_section(page, note, decimals, closings, books.orders.as_slice())
}

/// Writes the body of a page with this dialogue, which shows these lines. The texts are put together in `note`, whose
/// own text is lost.
#[tactic(auto, unfolding(crate::specs::Page::page_with))]
fn page_with(
    page: &mut Text,
    note: &mut Text,
    shown: &[u64],
    name: &[u8],
    money: &Option<Money>,
    tally: Tally,
    terminal: Option<[u8; 4]>,
    times: &Times,
    books: &DayBooks,
    messages: &[OrderMessage],
    closings: &[Option<Closing>],
    looks: &[Look],
    findings: &[Finding],
    dialogue: &[u8],
) -> Result<(), AllocError>
    ensures { OnOk result (page.new ≡ page.old
        ++ page_with shown.now name.now money.now tally terminal times.now books.now messages.now closings.now looks.now
        findings.now dialogue.now) }
{
    skip_link(page)?;
    start(page, Element::Main, b"page", None)?;
    sections(
        page, note, b"look", shown, name, money, terminal, times, books, messages, closings, looks,
        findings,
    )?;
    page.word(dialogue)?;
    page_foot(page, note, tally, times)?;
    end(page, Element::Main)
}

/// Writes the report of the trace in the file of this name as a page, with this dialogue, which shows these lines.
/// Fails only if memory runs out.
pub(crate) fn write(
    alloc: Global,
    page: &mut Text,
    shown: &[u64],
    name: &[u8],
    tally: Tally,
    currency: Option<Currency>,
    terminal: Option<[u8; 4]>,
    times: &Times,
    books: &DayBooks,
    messages: &[OrderMessage],
    closings: &[Option<Closing>],
    looks: &[Look],
    findings: &[Finding],
    dialogue: &[u8],
) -> Result<(), AllocError>
    ensures { OnOk result (page.new ≡ page.old
        ++ report_page shown.now name.now tally currency terminal times.now books.now messages.now closings.now
        looks.now findings.now dialogue.now) }
{
    let mut note = Text::new(alloc);
    let money = money_of(currency);
    document_start(page, heading(name))?;
    page_with(
        page, &mut note, shown, name, &money, tally, terminal, times, books, messages, closings,
        looks, findings, dialogue,
    )?;
    document_end(page)
}
