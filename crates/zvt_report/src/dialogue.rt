//! The dialogue of a trace, as a page shows it.
ghost use Rattle.std.specs.Prelude.{◌≡◌, ◌++◌, ◌≤◌, nat_le, [], length, option_map, slice_get, IfOk, OnOk};
ghost use Rattle.std.specs.List.{list_any};
ghost use Rattle.zvt_grammar.specs.Lengths.{reading_of};
ghost use Rattle.zvt_page.specs.Html.{render};
ghost use Rattle.zvt_trace.specs.TraceEvent.{HasItsBytes, event_of, on};
ghost use Rattle.zvt_trace.specs.Written.{limit};
ghost use Rattle.zvt_report.specs.Dialogue.{Adds, AnswersDialogue, HasListed, IsUndrawn, Lists, section_with};
ghost use Rattle.zvt_report.specs.Dialogue.{has_note, is_between, is_within, look_lines, most, order_lines};
ghost use Rattle.zvt_report.specs.Dialogue.{part_note, part_words, ranges_of, shown_lines};

use crate::cases::Look;
use crate::form::ReportForm;
use crate::page_events::{event_item, has_line};
use crate::report::Report;
use crate::rows::OrderRow;
use std::alloc::{AllocError, Global};
use zvt_grammar::Lengths;
use zvt_page::{Element, end, leaf, start};
use zvt_text::Text;
use zvt_trace::{Listener, ListenerError, Scope, Tally, TraceEvent, TraceFault, walk};

/// The maximum number of messages of a trace that is shown whole, and of events that a page shows.
const MOST: usize = 2_000;

/// What a page has of the events of a trace.
#[derive(Drop)]
pub(crate) struct Drawn {
    /// The slips and the dialogue.
    pub(crate) text: Text,
    /// The line of each item of the dialogue.
    pub(crate) lines: Vec<u64>,
}

/// Writes an item for each event at these lines, up to [`MOST`].
#[derive(Drop)]
pub(crate) struct Dialogue {
    alloc: Global,
    /// The first and the last line of each part that is shown. Without any, all lines are shown.
    ranges: Option<Vec<(u64, u64)>>,
    items: Text,
    note: Text,
    /// The line of each item.
    lines: Vec<u64>,
}

impl Listener for Dialogue {
    ghost use Rattle.std.specs.Prelude.{◌≡◌};
    ghost use Rattle.zvt_report.specs.Dialogue.{Lists};
    ghost use Rattle.zvt_trace.specs.declared.listener.ListenerError.TheVariants.{Memory};

    ghost hears = { λ old event new. Lists old event new };

    ghost fails = { λ _ _ failure _. failure ≡ Memory };

    fn hear(&mut self, line: u64, trace_event: &TraceEvent<'_>) -> Result<(), ListenerError> {
        self.list(line, trace_event)?;
        Ok(())
    }
}

impl Dialogue {
    /// Creates a dialogue without items.
    fn new(alloc: Global, ranges: Option<Vec<(u64, u64)>>) -> Dialogue
        ensures listed { HasListed [] result }
        ensures ranges { result.ranges ≡ ranges }
    {
        Dialogue {
            alloc,
            ranges,
            items: Text::new(alloc),
            note: Text::new(alloc),
            lines: Vec::new(alloc),
        }
    }

    /// Whether there is no room for another item.
    fn is_full(&self) -> bool
        ensures { result ≡ nat_le most (length self.now.lines.items) }
    {
        MOST <= self.lines.len()
    }

    /// Writes the item of an event, if there is room for it and its line is shown.
    fn list(&mut self, line: u64, trace_event: &TraceEvent<'_>) -> Result<(), AllocError>
        requires { HasItsBytes trace_event.now }
        ensures { OnOk result (Lists self.old (on line (event_of trace_event.now)) self.new) }
    {
        if self.is_full() {
            return Ok(());
        }
        if !is_within(&self.ranges, line) {
            return Ok(());
        }
        self.add(line, trace_event)
    }

    /// Writes the item of an event.
    fn add(&mut self, line: u64, trace_event: &TraceEvent<'_>) -> Result<(), AllocError>
        requires { HasItsBytes trace_event.now }
        ensures { OnOk result (Adds self.old (on line (event_of trace_event.now)) self.new) }
    {
        let seen = has_line(self.lines.as_slice(), line);
        event_item(
            &mut self.items,
            &mut self.note,
            self.alloc,
            seen,
            line,
            trace_event,
        )?;
        self.lines.push(line)?;
        Ok(())
    }

    /// Returns the section of the dialogue.
    #[tactic(auto, unfolding(crate::specs::Dialogue::section_with))]
    fn section(&self) -> Result<Text, AllocError>
        ensures { IfOk result (λ text.
            text ≡ section_with (ranges_of self.now) (length self.now.lines.items) self.now.items) }
    {
        let mut text = Text::new(self.alloc);
        leaf(&mut text, Element::H2, b"", b"Dialogue")?;
        part_note(&mut text, &self.ranges, self.lines.len())?;
        start(&mut text, Element::Ol, b"dlg", None)?;
        text.word(self.items.bytes())?;
        end(&mut text, Element::Ol)?;
        Ok(text)
    }
}

/// Returns the words about the part that is left out.
fn part_words(ranges: &Option<Vec<(u64, u64)>>) -> &'static [u8]
    ensures { result.now ≡ part_words (option_map (λ ranges. ranges.items) ranges.now) }
{
    match ranges {
        Some(_) => {
            b"The trace has more than 2000 messages. Only the orders that need a look are shown here, \
up to 2000 events. `zvt show --safe --explain FILE` prints the whole dialogue."
        }
        None => {
            b"No more than 2000 events are shown here. `zvt show --safe --explain FILE` prints the whole dialogue."
        }
    }
}

/// Whether a part may be left out of a dialogue with this number of items.
fn has_note(ranges: &Option<Vec<(u64, u64)>>, shown: usize) -> bool
    ensures { result ≡ has_note (option_map (λ ranges. ranges.items) ranges.now) shown }
{
    match ranges {
        Some(_) => true,
        None => MOST <= shown,
    }
}

/// Writes which part is left out, if one may be.
#[tactic(auto, unfolding(crate::specs::Dialogue::part_note))]
fn part_note(
    text: &mut Text,
    ranges: &Option<Vec<(u64, u64)>>,
    shown: usize,
) -> Result<(), AllocError>
    ensures { OnOk result (text.new ≡ text.old
        ++ render (part_note (option_map (λ ranges. ranges.items) ranges.now) shown)) }
{
    if !has_note(ranges, shown) {
        return Ok(());
    }
    leaf(text, Element::P, b"meta", part_words(ranges))
}

/// Whether a line is in this range.
fn is_between(line: u64, range: (u64, u64)) -> bool
    ensures { result ≡ is_between line range }
{
    range.0 <= line && line <= range.1
}

/// Whether a line is in one of these ranges.
fn is_in(ranges: &[(u64, u64)], line: u64) -> bool
    ensures { result ≡ list_any (is_between line) ranges.now }
{
    ranges.iter().any(|range| is_between(line, *range))
}

/// Whether a line is shown.
pub(crate) fn is_within(ranges: &Option<Vec<(u64, u64)>>, line: u64) -> bool
    ensures { result ≡ is_within (option_map (λ ranges. ranges.items) ranges.now) line }
{
    match ranges {
        Some(ranges) => is_in(ranges.as_slice(), line),
        None => true,
    }
}

/// Returns the first and the last line of the order of a look.
fn order_lines(rows: &[OrderRow], look: &Look) -> Option<(u64, u64)>
    ensures { result ≡ option_map order_lines (slice_get rows.now look.now.order) }
{
    let row = rows.get(look.order)?;
    Some((row.first, row.last))
}

/// Returns the first and the last line of each order that needs a look.
fn look_lines(
    alloc: Global,
    rows: &[OrderRow],
    looks: &[Look],
) -> Result<Vec<(u64, u64)>, AllocError>
    ensures { IfOk result (λ ranges. ranges.items ≡ look_lines rows.now looks.now) }
{
    let mut ranges = Vec::new(alloc);
    let mut rest = looks;
    'looks: while let [look, later @ ..] = rest {
        if let Some(range) = order_lines(rows, look) {
            ranges.push(range)?;
        }
        rest = later;
    }
    Ok(ranges)
}

/// Returns the lines that a page shows, or `None` if it shows all.
fn shown_lines(
    alloc: Global,
    tally: Tally,
    rows: &[OrderRow],
    looks: &[Look],
) -> Result<Option<Vec<(u64, u64)>>, AllocError>
    ensures { IfOk result (λ shown.
        option_map (λ ranges. ranges.items) shown ≡ shown_lines tally rows.now looks.now) }
{
    if tally.messages <= MOST as u64 {
        return Ok(None);
    }
    Ok(Some(look_lines(alloc, rows, looks)?))
}

/// Returns the lines that the page of this report shows, or `None` if it shows all.
pub(crate) fn lines_of(
    alloc: Global,
    report: &Report,
    looks: &[Look],
) -> Result<Option<Vec<(u64, u64)>>, AllocError>
    ensures { IfOk result (λ shown. option_map (λ ranges. ranges.items) shown
        ≡ shown_lines report.now.tally report.now.books.orders looks.now) }
{
    shown_lines(alloc, report.tally, report.books.orders.as_slice(), looks)
}

/// Returns the dialogue of this trace, if the report has this form. In another form, nothing is drawn.
pub(crate) fn dialogue_in(
    alloc: Global,
    form: ReportForm,
    scope: Scope,
    lengths: Lengths,
    report: &Report,
    looks: &[Look],
    trace: &[u8],
) -> Result<Drawn, TraceFault>
    requires { length trace.now ≤ limit }
    ensures { AnswersDialogue (reading_of lengths) scope trace.now form report.now looks.now result }
{
    match form {
        ReportForm::Text | ReportForm::Json => Ok(nothing_drawn(alloc)),
        ReportForm::Page => section_in(alloc, scope, lengths, report, looks, trace),
    }
}

/// Returns what a report without a dialogue has of the events.
fn nothing_drawn(alloc: Global) -> Drawn
    ensures { IsUndrawn result }
{
    Drawn {
        text: Text::new(alloc),
        lines: Vec::new(alloc),
    }
}

/// Returns the dialogue of this trace.
fn section_in(
    alloc: Global,
    scope: Scope,
    lengths: Lengths,
    report: &Report,
    looks: &[Look],
    trace: &[u8],
) -> Result<Drawn, TraceFault>
    requires { length trace.now ≤ limit }
    ensures { AnswersDialogue (reading_of lengths) scope trace.now ReportForm.Page report.now looks.now result }
{
    let ranges = lines_of(alloc, report, looks)?;
    let mut dialogue = Dialogue::new(alloc, ranges);
    walk(&mut dialogue, alloc, scope, lengths, trace)?;
    let text = dialogue.section()?;
    Ok(Drawn {
        text,
        lines: dialogue.lines,
    })
}
