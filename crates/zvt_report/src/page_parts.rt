//! Writes the cells of the tables of a page.
ghost use Rattle.std.specs.Prelude.{◌≡◌, ◌++◌, [], ◌∷◌, codes, OnOk};
ghost use Rattle.zvt_page.specs.Html.{end_tag, render, start_tag};
ghost use Rattle.zvt_report.specs.PageParts.{amount_cell, amount_or_nothing, clock_or_nothing, column, from_to};
ghost use Rattle.zvt_report.specs.PageParts.{lines_cell, time_cell, time_heading};
ghost use Rattle.zvt_report.specs.PageParts.{outcome_cell, receipt_cell, receipt_digits, trace_cell, trace_digits};

use crate::amounts::amount;
use crate::columns::zeros;
use crate::currencies::Decimals;
use crate::tones::Tone;
use std::alloc::AllocError;
use zvt_bcd::{Amount, Trace};
use zvt_page::{Attribute, Element, end, escaped, leaf, start};
use zvt_text::{Text, hexadecimal};
use zvt_trace::Moment;

/// Writes the heading of a column.
#[tactic(auto, unfolding(crate::specs::PageParts::column))]
pub(crate) fn column(page: &mut Text, class: &[u8], title: &[u8]) -> Result<(), AllocError>
    ensures { OnOk result (page.new ≡ page.old ++ render (column class.now title.now)) }
{
    start(page, Element::Th, class, Some((Attribute::Scope, b"col")))?;
    escaped(page, title)?;
    end(page, Element::Th)
}

/// Writes the heading of the column of times, if the table has one.
#[tactic(auto, unfolding(crate::specs::PageParts::time_heading))]
pub(crate) fn time_heading(page: &mut Text, timed: bool) -> Result<(), AllocError>
    ensures { OnOk result (page.new ≡ page.old ++ render (time_heading timed)) }
{
    if timed {
        column(page, b"tm", b"Time")
    } else {
        Ok(())
    }
}

/// Writes the time of day, if it is known.
fn clock_or_nothing(text: &mut Text, time: &Option<Moment>) -> Result<(), AllocError>
    ensures { OnOk result (text.new ≡ text.old ++ clock_or_nothing time.now) }
{
    match time {
        Some(time) => text.word(&time.clock()),
        None => Ok(()),
    }
}

/// Writes the cell of the time of an order, if the table has a column for it.
#[tactic(auto, unfolding(crate::specs::PageParts::time_cell))]
pub(crate) fn time_cell(
    page: &mut Text,
    note: &mut Text,
    timed: bool,
    time: &Option<Moment>,
) -> Result<(), AllocError>
    ensures { OnOk result (page.new ≡ page.old ++ render (time_cell timed time.now)) }
{
    if !timed {
        return Ok(());
    }
    note.clear();
    clock_or_nothing(note, time)?;
    leaf(page, Element::Td, b"tm", note.bytes())
}

/// Writes an amount, if there is one.
fn amount_or_nothing(
    text: &mut Text,
    decimals: Decimals,
    given: &Option<Amount>,
) -> Result<(), AllocError>
    ensures { OnOk result (text.new ≡ text.old ++ amount_or_nothing decimals given.now) }
{
    match given {
        Some(given) => amount(text, decimals, u128::from(given.get())),
        None => Ok(()),
    }
}

/// Writes the cell of an amount.
#[tactic(auto, unfolding(crate::specs::PageParts::amount_cell))]
pub(crate) fn amount_cell(
    page: &mut Text,
    note: &mut Text,
    decimals: Decimals,
    given: &Option<Amount>,
) -> Result<(), AllocError>
    ensures { OnOk result (page.new ≡ page.old ++ render (amount_cell decimals given.now)) }
{
    note.clear();
    amount_or_nothing(note, decimals, given)?;
    leaf(page, Element::Td, b"n am", note.bytes())
}

/// Writes the digits of a trace number, if there is one.
fn trace_digits(text: &mut Text, trace: &Option<Trace>) -> Result<(), AllocError>
    ensures { OnOk result (text.new ≡ text.old ++ trace_digits trace.now) }
{
    match trace {
        Some(trace) => zeros(text, 6, u128::from(trace.get())),
        None => Ok(()),
    }
}

/// Writes the cell of a trace number.
#[tactic(auto, unfolding(crate::specs::PageParts::trace_cell))]
pub(crate) fn trace_cell(
    page: &mut Text,
    note: &mut Text,
    trace: &Option<Trace>,
) -> Result<(), AllocError>
    ensures { OnOk result (page.new ≡ page.old ++ render (trace_cell trace.now)) }
{
    note.clear();
    trace_digits(note, trace)?;
    leaf(page, Element::Td, b"ids", note.bytes())
}

/// Writes the digits of a receipt number, if there is one.
fn receipt_digits(text: &mut Text, receipt: &Option<[u8; 2]>) -> Result<(), AllocError>
    ensures { OnOk result (text.new ≡ text.old ++ receipt_digits receipt.now) }
{
    match receipt {
        Some(receipt) => hexadecimal(text, receipt),
        None => Ok(()),
    }
}

/// Writes the cell of a receipt number.
#[tactic(auto, unfolding(crate::specs::PageParts::receipt_cell))]
pub(crate) fn receipt_cell(
    page: &mut Text,
    note: &mut Text,
    receipt: &Option<[u8; 2]>,
) -> Result<(), AllocError>
    ensures { OnOk result (page.new ≡ page.old ++ render (receipt_cell receipt.now)) }
{
    note.clear();
    receipt_digits(note, receipt)?;
    leaf(page, Element::Td, b"rc", note.bytes())
}

/// Writes the first and the last line of an order.
pub(crate) fn from_to(text: &mut Text, first: u64, last: u64) -> Result<(), AllocError>
    ensures { OnOk result (text.new ≡ text.old ++ from_to first last) }
{
    text.number(first)?;
    text.push(b'-')?;
    text.number(last)
}

/// Writes the cell of the lines of an order.
#[tactic(auto, unfolding(crate::specs::PageParts::lines_cell))]
pub(crate) fn lines_cell(
    page: &mut Text,
    note: &mut Text,
    first: u64,
    last: u64,
) -> Result<(), AllocError>
    ensures { OnOk result (page.new ≡ page.old ++ render (lines_cell first last)) }
{
    note.clear();
    from_to(note, first, last)?;
    leaf(page, Element::Td, b"ln", note.bytes())
}

/// Writes the cell that says what became of an order.
#[tactic(auto, unfolding(crate::specs::PageParts::outcome_cell))]
pub(crate) fn outcome_cell(page: &mut Text, tone: Tone, words: &[u8]) -> Result<(), AllocError>
    ensures { OnOk result (page.new ≡ page.old ++ render (outcome_cell tone words.now)) }
{
    start(page, Element::Td, b"oc", None)?;
    leaf(page, Element::Span, tone.class(), words)?;
    end(page, Element::Td)
}

/// Writes the start of a table, up to its headings.
pub(crate) fn table_start(page: &mut Text) -> Result<(), AllocError>
    ensures { OnOk result (page.new ≡ page.old ++ (start_tag Element.Table ((Attribute.Class, codes "t") ∷ [])
        ++ (start_tag Element.Thead [] ++ start_tag Element.Tr []))) }
{
    start(page, Element::Table, b"t", None)?;
    start(page, Element::Thead, b"", None)?;
    start(page, Element::Tr, b"", None)
}

/// Writes what comes between the headings of a table and its rows.
pub(crate) fn table_body(page: &mut Text) -> Result<(), AllocError>
    ensures { OnOk result (page.new ≡ page.old
        ++ (end_tag Element.Tr ++ (end_tag Element.Thead ++ start_tag Element.Tbody []))) }
{
    end(page, Element::Tr)?;
    end(page, Element::Thead)?;
    start(page, Element::Tbody, b"", None)
}

/// Writes the end of a table, after its rows.
pub(crate) fn table_end(page: &mut Text) -> Result<(), AllocError>
    ensures { OnOk result (page.new ≡ page.old ++ (end_tag Element.Tbody ++ end_tag Element.Table)) }
{
    end(page, Element::Tbody)?;
    end(page, Element::Table)
}
