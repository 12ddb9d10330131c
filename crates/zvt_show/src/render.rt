//! The text of an event.
ghost use Rattle.std.specs.Prelude.{◌≡◌, ◌++◌, ◌∷◌, [], IfOk, List, OnErr, OnOk, ℕ};
ghost use Rattle.zvt_grammar.specs.Lengths.{reading_of};
ghost use Rattle.zvt_apdu.specs.Grammar.{Spells};
ghost use Rattle.zvt_text.specs.Writing.{Adds};
ghost use Rattle.zvt_trace.specs.Lines.{direction_text};
ghost use Rattle.zvt_trace.specs.Moments.{time_at};
ghost use Rattle.zvt_trace.specs.TraceEvent.{HasItsBytes, event_of, on};
ghost use Rattle.zvt_json.specs.Events.{AddsLine};
ghost use Rattle.zvt_show.specs.Lines.{lost_text, refused_text, resumed_text, stopped_text, truncated_text};
ghost use Rattle.zvt_show.specs.Text.{EventText, joined, moment_part, shown};
ghost use Rattle.zvt_show.specs.Written.{AddsEvent, AddsMessage, AddsPlain, AddsTimed};
ghost use Rattle.zvt_show.specs.declared.render.Style.TheVariants.{Join};

use crate::receipts::{ReceiptOptions, json_receipt, receipt};
use std::alloc::{AllocError, Global};
use zvt_apdu::{ApduView, encode, owned};
use zvt_grammar::{Lengths, Why};
use zvt_text::{Text, TextOptions};
use zvt_trace::{Direction, Moment, Timed, TraceEvent, time_at};

/// The styles in which the events of a trace are written.
#[derive(Clone, Copy, Debug, PartialEq, Eq)]
pub enum Style {
    /// Each message with its fields, and each event of a side or of the line.
    Show(TextOptions),
    /// Each message as a line of a trace, and each event of a side as a comment.
    Join,
    /// The lines of the terminal's receipts, and nothing else.
    Receipts(ReceiptOptions),
    /// Each event as a line of JSON.
    Json,
    /// The lines of the terminal's receipts, each as a line of JSON, and nothing else.
    JsonReceipts {
        /// Whether the lines of text blocks are written too.
        text_blocks: bool,
    },
}

impl Style {
    ghost use Rattle.std.specs.Prelude.{option_map};
    ghost use Rattle.zvt_show.specs.Lines.{mark_of};

    /// Returns the start of a line about a side or the line, or `None` in a style without such lines.
    fn mark(self) -> Option<&'static str>
        ensures { option_map (λ mark. mark.now) result ≡ mark_of self }
    {
        match self {
            Style::Show(_) => Some(""),
            Style::Join => Some("# "),
            Style::Receipts(_) | Style::Json | Style::JsonReceipts { .. } => None,
        }
    }
}

/// Appends the text of an event at a line of the trace. If an allocation fails, the text does not change.
#[inline(always)]
pub fn render_event(
    text: &mut Text,
    alloc: Global,
    style: Style,
    line: u64,
    trace_event: &TraceEvent<'_>,
) -> Result<(), AllocError>
    requires { HasItsBytes trace_event.now }
    ensures adds { OnOk result (AddsEvent style (on line (event_of trace_event.now)) text.old text.new) }
    ensures keeps { OnErr result (text.new ≡ text.old) }
{
    match style {
        Style::Json => json(text, alloc, line, trace_event),
        Style::JsonReceipts { text_blocks } => {
            json_receipt(text, alloc, text_blocks, line, trace_event)
        }
        Style::Show(_) | Style::Join | Style::Receipts(_) => plain(text, alloc, style, trace_event),
    }
}

/// Appends the text of an event, after the moment of its line if it is one of `times`. If an allocation fails, the text
/// does not change.
#[inline(always)]
pub(crate) fn render_timed(
    text: &mut Text,
    alloc: Global,
    style: Style,
    times: &[Timed],
    line: u64,
    trace_event: &TraceEvent<'_>,
) -> Result<(), AllocError>
    requires { HasItsBytes trace_event.now }
    ensures adds { OnOk result (AddsTimed times.now style (on line (event_of trace_event.now)) text.old text.new) }
    ensures keeps { OnErr result (text.new ≡ text.old) }
{
    if times.is_empty() {
        return render_event(text, alloc, style, line, trace_event);
    }
    with_time(text, alloc, style, times, line, trace_event)
}

/// Appends the moment of the line, if there is one, and the text of an event.
#[inline(never)]
fn with_time(
    text: &mut Text,
    alloc: Global,
    style: Style,
    times: &[Timed],
    line: u64,
    trace_event: &TraceEvent<'_>,
) -> Result<(), AllocError>
    requires { HasItsBytes trace_event.now }
    ensures adds { OnOk result ((one : List ℕ) × EventText style (on line (event_of trace_event.now)) one
        × (text.new ≡ text.old ++ (moment_part (time_at times.now line) ++ one))) }
    ensures keeps { OnErr result (text.new ≡ text.old) }
{
    let mut whole = Text::new(alloc);
    put_moment(&mut whole, &time_at(times, line))?;
    render_event(&mut whole, alloc, style, line, trace_event)?;
    text.word(whole.bytes())
}

/// Appends a moment and a space, if there is one.
fn put_moment(text: &mut Text, moment: &Option<Moment>) -> Result<(), AllocError>
    ensures { OnOk result (text.new ≡ text.old ++ moment_part moment.now) }
{
    if let Some(moment) = moment {
        text.word(moment.text().as_slice())?;
        text.push(b' ')?;
    }
    Ok(())
}

/// Adds an event as a line of JSON.
#[inline(never)]
fn json(
    text: &mut Text,
    alloc: Global,
    line: u64,
    trace_event: &TraceEvent<'_>,
) -> Result<(), AllocError>
    requires { HasItsBytes trace_event.now }
    ensures adds { OnOk result (AddsLine (on line (event_of trace_event.now)) text.old text.new) }
    ensures keeps { OnErr result (text.new ≡ text.old) }
{
    zvt_json::event(text, alloc, line, trace_event)
}

/// Adds the text of an event in a style that writes no JSON.
#[inline(always)]
fn plain(
    text: &mut Text,
    alloc: Global,
    style: Style,
    trace_event: &TraceEvent<'_>,
) -> Result<(), AllocError>
    requires { HasItsBytes trace_event.now }
    ensures adds { OnOk result (AddsPlain style (event_of trace_event.now) text.old text.new) }
    ensures keeps { OnErr result (text.new ≡ text.old) }
{
    match trace_event {
        TraceEvent::Message {
            from,
            apdu,
            bytes,
            lengths,
        } => match style {
            Style::Show(options) => show(text, options, *from, apdu),
            Style::Join => join(text, alloc, *from, apdu, bytes, *lengths),
            Style::Receipts(options) => receipt(text, alloc, options, *from, apdu),
            Style::Json | Style::JsonReceipts { .. } => Ok(()),
        },
        TraceEvent::Refused { from, refusal } => {
            refused(text, alloc, style, *from, refusal.place(), refusal.why)
        }
        TraceEvent::Unread { from } => stopped(text, alloc, style, *from),
        TraceEvent::Resumed { from, size } => resumed(text, alloc, style, *from, *size),
        TraceEvent::CutOff { from, bytes } => truncated(text, alloc, style, *from, bytes.len()),
        TraceEvent::Lost => lost(text, style),
    }
}

/// Adds a message with its direction and its fields.
#[inline(always)]
fn show(
    text: &mut Text,
    options: TextOptions,
    from: Direction,
    apdu: &ApduView<'_>,
) -> Result<(), AllocError>
    ensures { Adds result text.old text.new (shown options from apdu.now) }
{
    zvt_text::message(text, options, prefix(from), apdu)
}

/// The direction of a line, and a space.
#[inline(always)]
fn prefix(from: Direction) -> &'static [u8]
    ensures { result.now ≡ direction_text from ++ 32 ∷ [] }
{
    match from {
        Direction::FromTill => b"> ",
        Direction::FromTerminal => b"< ",
    }
}

/// Adds a message as a line of a trace: its direction, and its one strict spelling.
#[inline(always)]
fn join(
    text: &mut Text,
    alloc: Global,
    from: Direction,
    apdu: &ApduView<'_>,
    bytes: &[u8],
    lengths: Lengths,
) -> Result<(), AllocError>
    requires { Spells (reading_of lengths) apdu.now bytes.now }
    ensures adds { OnOk result (AddsMessage Join from apdu.now text.old text.new) }
    ensures keeps { OnErr result (text.new ≡ text.old) }
{
    match lengths {
        Lengths::Shortest => line(text, from, bytes),
        Lengths::Padded => normal_line(text, alloc, from, apdu),
    }
}

/// Adds a message as a line of a trace, and encodes it for that.
#[inline(never)]
fn normal_line(
    text: &mut Text,
    alloc: Global,
    from: Direction,
    apdu: &ApduView<'_>,
) -> Result<(), AllocError>
    ensures adds { OnOk result (AddsMessage Join from apdu.now text.old text.new) }
    ensures keeps { OnErr result (text.new ≡ text.old) }
{
    let message = owned(alloc, apdu)?;
    let bytes = encode(alloc, &message)?;
    line(text, from, bytes.as_slice())
}

/// Adds a line of a trace with these bytes.
#[inline(always)]
fn line(text: &mut Text, from: Direction, bytes: &[u8]) -> Result<(), AllocError>
    ensures { Adds result text.old text.new (joined from bytes.now) }
{
    zvt_text::line(text, prefix(from), bytes)
}

/// Returns the first words of a line about a side. The line is built apart, so that the text takes it whole or not at
/// all.
fn begun(alloc: Global, mark: &str, from: Direction, words: &[u8]) -> Result<Text, AllocError>
    ensures { IfOk result (λ line. line ≡ mark.now ++ direction_text from ++ words.now) }
{
    let mut line = Text::new(alloc);
    line.word(mark.as_bytes())?;
    line.word(from.sign().as_bytes())?;
    line.word(words)?;
    Ok(line)
}

/// Adds the line of a refused stream.
fn refused(
    text: &mut Text,
    alloc: Global,
    style: Style,
    from: Direction,
    place: usize,
    why: Why,
) -> Result<(), AllocError>
    ensures { Adds result text.old text.new (refused_text style from place why) }
{
    let Some(mark) = style.mark() else {
        return Ok(());
    };
    let mut line = begun(alloc, mark, from, b" refused at ")?;
    line.number(place as u64)?;
    line.word(b": ")?;
    line.word(why.name().as_bytes())?;
    line.push(b'\n')?;
    text.word(line.bytes())
}

/// Adds the line of a stream that ends within a message.
fn truncated(
    text: &mut Text,
    alloc: Global,
    style: Style,
    from: Direction,
    have: usize,
) -> Result<(), AllocError>
    ensures { Adds result text.old text.new (truncated_text style from have) }
{
    let Some(mark) = style.mark() else {
        return Ok(());
    };
    let mut line = begun(alloc, mark, from, b" truncated after ")?;
    line.number(have as u64)?;
    line.push(b'\n')?;
    text.word(line.bytes())
}

/// Adds the line of a side whose reading resumes after a refused message.
fn resumed(
    text: &mut Text,
    alloc: Global,
    style: Style,
    from: Direction,
    size: usize,
) -> Result<(), AllocError>
    ensures { Adds result text.old text.new (resumed_text style from size) }
{
    let Some(mark) = style.mark() else {
        return Ok(());
    };
    let mut line = begun(alloc, mark, from, b" resumed after ")?;
    line.number(size as u64)?;
    line.word(b" bytes")?;
    line.push(b'\n')?;
    text.word(line.bytes())
}

/// Adds the line of a lost connection.
fn lost(text: &mut Text, style: Style) -> Result<(), AllocError>
    ensures { Adds result text.old text.new (lost_text style) }
{
    match style {
        Style::Show(_) => text.word(b"! line lost\n"),
        Style::Join => text.word(b"!\n"),
        Style::Receipts(_) | Style::Json | Style::JsonReceipts { .. } => Ok(()),
    }
}

/// Adds the line of a piece after a refusal.
fn stopped(text: &mut Text, alloc: Global, style: Style, from: Direction) -> Result<(), AllocError>
    ensures { Adds result text.old text.new (stopped_text style from) }
{
    let Some(mark) = style.mark() else {
        return Ok(());
    };
    let line = begun(alloc, mark, from, b" stopped\n")?;
    text.word(line.bytes())
}
