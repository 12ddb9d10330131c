//! Writes the events of a trace to a page.
ghost use Rattle.std.specs.Prelude.{◌≡◌, ◌++◌, ◌∷◌, [], OnOk, codes};
ghost use Rattle.std.specs.Str.Lines.{lines};
ghost use Rattle.zvt_page.specs.Html.{attributes_of, render, start_tag};
ghost use Rattle.zvt_trace.specs.TraceEvent.{HasItsBytes, event_of, on};
ghost use Rattle.zvt_report.specs.PageEvents.{event_class, event_item, event_text, id_of, line_id, line_parts};
ghost use Rattle.zvt_report.specs.PageEvents.{has_line, number_part, say_part, side_class};

use std::alloc::{AllocError, Global};
use zvt_page::{Attribute, Element, end, leaf, start};
use zvt_show::{Style, render_event};
use zvt_text::{Text, TextOptions};
use zvt_trace::{Direction, TraceEvent, next_line};

/// Returns the class of a message from this side.
fn side_class(from: Direction) -> &'static [u8]
    ensures { result.now ≡ side_class from }
{
    match from {
        Direction::FromTill => b"till",
        Direction::FromTerminal => b"terminal",
    }
}

/// Returns the class of an event.
fn event_class(trace_event: &TraceEvent<'_>) -> &'static [u8]
    ensures { result.now ≡ event_class (event_of trace_event.now) }
{
    match trace_event {
        TraceEvent::Message { from, .. } => side_class(*from),
        TraceEvent::Refused { .. } => b"bad",
        TraceEvent::Unread { .. } => b"bad",
        TraceEvent::Resumed { .. } => b"bad",
        TraceEvent::CutOff { .. } => b"bad",
        TraceEvent::Lost => b"lost",
    }
}

/// Writes the id of a line.
#[tactic(auto, unfolding(crate::specs::PageEvents::line_id))]
fn line_id(text: &mut Text, line: u64) -> Result<(), AllocError>
    ensures { OnOk result (text.new ≡ text.old ++ line_id line) }
{
    text.push(b'l')?;
    text.number(line)
}

/// Whether this line is one of these.
pub(crate) fn has_line(lines: &[u64], line: u64) -> bool
    ensures { result ≡ has_line lines.now line }
{
    lines.iter().any(|other| line == *other)
}

/// Writes the start of a link to the item of this line.
pub(crate) fn link_start(page: &mut Text, note: &mut Text, line: u64) -> Result<(), AllocError>
    ensures { OnOk result (page.new ≡ page.old ++ start_tag Element.A
        ((Attribute.Class, codes "at") ∷ (Attribute.Href, 35 ∷ line_id line) ∷ [])) }
{
    note.clear();
    note.push(b'#')?;
    line_id(note, line)?;
    start(
        page,
        Element::A,
        b"at",
        Some((Attribute::Href, note.bytes())),
    )
}

/// Writes the start of the item of an event. It has the id of its line unless an earlier item has it.
fn item_start(
    page: &mut Text,
    note: &mut Text,
    seen: bool,
    line: u64,
    class: &[u8],
) -> Result<(), AllocError>
    ensures { OnOk result (page.new ≡ page.old
        ++ start_tag Element.Li (attributes_of class.now (id_of seen line))) }
{
    if seen {
        return start(page, Element::Li, class, None);
    }
    note.clear();
    line_id(note, line)?;
    start(
        page,
        Element::Li,
        class,
        Some((Attribute::Id, note.bytes())),
    )
}

/// Writes the number of a line.
#[tactic(auto, unfolding(crate::specs::PageEvents::number_part))]
fn number_part(page: &mut Text, note: &mut Text, line: u64) -> Result<(), AllocError>
    ensures { OnOk result (page.new ≡ page.old ++ render (number_part line)) }
{
    note.clear();
    note.number(line)?;
    leaf(page, Element::Span, b"ln", note.bytes())
}

/// Writes an element for each line of a text.
fn line_parts(page: &mut Text, text: &[u8]) -> Result<(), AllocError>
    ensures { OnOk result (page.new ≡ page.old ++ render (line_parts (lines text.now))) }
{
    let mut rest = text;
    'lines: while !rest.is_empty() {
        let (line, later) = next_line(rest);
        leaf(page, Element::Div, b"", line)?;
        rest = later;
    }
    Ok(())
}

/// Puts the text of an event in place of the note.
fn event_text(
    note: &mut Text,
    alloc: Global,
    line: u64,
    trace_event: &TraceEvent<'_>,
) -> Result<(), AllocError>
    requires { HasItsBytes trace_event.now }
    ensures { OnOk result (note.new ≡ event_text (event_of trace_event.now)) }
{
    note.clear();
    let options = TextOptions {
        safe: true,
        explained: true,
    };
    render_event(note, alloc, Style::Show(options), line, trace_event)
}

/// Writes what an event says.
#[tactic(auto, unfolding(crate::specs::PageEvents::say_part))]
fn say_part(
    page: &mut Text,
    note: &mut Text,
    alloc: Global,
    line: u64,
    trace_event: &TraceEvent<'_>,
) -> Result<(), AllocError>
    requires { HasItsBytes trace_event.now }
    ensures { OnOk result (page.new ≡ page.old ++ render (say_part (event_of trace_event.now))) }
{
    event_text(note, alloc, line, trace_event)?;
    start(page, Element::Div, b"say", None)?;
    line_parts(page, note.bytes())?;
    end(page, Element::Div)
}

/// Writes the item of an event at this line. The text is put together in `note`, whose own text is lost.
#[tactic(auto, unfolding(crate::specs::PageEvents::event_item))]
pub(crate) fn event_item(
    page: &mut Text,
    note: &mut Text,
    alloc: Global,
    seen: bool,
    line: u64,
    trace_event: &TraceEvent<'_>,
) -> Result<(), AllocError>
    requires { HasItsBytes trace_event.now }
    ensures { OnOk result (page.new ≡ page.old
        ++ render (event_item seen (on line (event_of trace_event.now)))) }
{
    item_start(page, note, seen, line, event_class(trace_event))?;
    number_part(page, note, line)?;
    say_part(page, note, alloc, line, trace_event)?;
    end(page, Element::Li)
}
