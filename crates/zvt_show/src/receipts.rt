//! The receipts that the terminal sends: its print lines, and the lines of its text blocks.
ghost use Rattle.std.specs.Prelude.{◌≡◌, OnErr, OnOk, is_some};
ghost use Rattle.zvt_text.specs.Writing.{Adds};
ghost use Rattle.zvt_trace.specs.TraceEvent.{HasItsBytes, event_of, on};
ghost use Rattle.zvt_show.specs.Text.{block_fields, block_in, block_json, printed, printed_in, receipt};
ghost use Rattle.zvt_show.specs.Written.{AddsEvent};
ghost use Rattle.zvt_show.specs.declared.render.Style.TheVariants.{JsonReceipts};

use std::alloc::{AllocError, Global};
use zvt_apdu::{ApduView, Kind};
use zvt_field::FieldsView;
use zvt_text::{Codepage, Text, text_block};
use zvt_trace::{Direction, TraceEvent};

/// Which receipts are written, and in which characters.
#[derive(Clone, Copy, Debug, PartialEq, Eq)]
pub struct ReceiptOptions {
    /// Whether the lines of text blocks are written too. A block that names the type of its receipt begins with a line
    /// such as `# merchant receipt`.
    pub text_blocks: bool,
    /// The code page of the text. Without one, bytes that are not ASCII are written as escapes.
    pub codepage: Option<Codepage>,
}

impl ReceiptOptions {
    ghost use Rattle.zvt_show.specs.Text.{print_lines};

    /// Returns the options for print lines alone, with escapes.
    pub fn print_lines() -> ReceiptOptions
        ensures { result ≡ print_lines }
    {
        ReceiptOptions {
            text_blocks: false,
            codepage: None,
        }
    }
}

/// Adds the receipt lines of a message, if it is the terminal's.
#[inline(never)]
pub(crate) fn receipt(
    text: &mut Text,
    alloc: Global,
    options: ReceiptOptions,
    from: Direction,
    apdu: &ApduView<'_>,
) -> Result<(), AllocError>
    ensures { Adds result text.old text.new (receipt options from apdu.now) }
{
    match from {
        Direction::FromTill => Ok(()),
        Direction::FromTerminal => printed(text, alloc, options, apdu),
    }
}

/// Adds the text of a print line, or of a text block.
fn printed(
    text: &mut Text,
    alloc: Global,
    options: ReceiptOptions,
    apdu: &ApduView<'_>,
) -> Result<(), AllocError>
    ensures { Adds result text.old text.new (printed options apdu.now) }
{
    let ReceiptOptions {
        text_blocks,
        codepage,
    } = options;
    if let Some(line) = apdu.text() {
        return zvt_text::receipt_line(text, codepage, line);
    }
    match block_fields(apdu) {
        Some(fields) if text_blocks => {
            zvt_text::receipt_block(text, codepage, &text_block(alloc, fields)?)
        }
        _ => Ok(()),
    }
}

/// Adds the receipt lines of an event as lines of JSON. Adds nothing for another event.
#[inline(never)]
pub(crate) fn json_receipt(
    text: &mut Text,
    alloc: Global,
    text_blocks: bool,
    line: u64,
    trace_event: &TraceEvent<'_>,
) -> Result<(), AllocError>
    requires { HasItsBytes trace_event.now }
    ensures adds { OnOk result (AddsEvent (JsonReceipts text_blocks) (on line (event_of trace_event.now)) text.old
        text.new) }
    ensures keeps { OnErr result (text.new ≡ text.old) }
{
    if is_receipt(trace_event) {
        zvt_json::event(text, alloc, line, trace_event)
    } else {
        json_block(text, alloc, text_blocks, line, trace_event)
    }
}

/// Adds the lines of a text block of the terminal as lines of JSON, if text blocks are read.
fn json_block(
    text: &mut Text,
    alloc: Global,
    text_blocks: bool,
    line: u64,
    trace_event: &TraceEvent<'_>,
) -> Result<(), AllocError>
    ensures { Adds result text.old text.new (block_json text_blocks line (block_in (event_of trace_event.now))) }
{
    if !text_blocks {
        return Ok(());
    }
    let TraceEvent::Message {
        from: Direction::FromTerminal,
        apdu,
        ..
    } = trace_event
    else {
        return Ok(());
    };
    match block_fields(apdu) {
        Some(fields) => zvt_json::receipt(text, line, &text_block(alloc, fields)?),
        None => Ok(()),
    }
}

/// Returns the fields of a text block.
fn block_fields<'a>(apdu: &ApduView<'a>) -> Option<FieldsView<'a>>
    ensures { result ≡ block_fields apdu.now }
{
    match apdu.kind() {
        Kind::TextBlock => apdu.fields(),
        _ => None,
    }
}

/// Whether an event is a print line of the terminal.
fn is_receipt(trace_event: &TraceEvent<'_>) -> bool
    ensures { result ≡ is_some (printed_in (event_of trace_event.now)) }
{
    match trace_event {
        TraceEvent::Message {
            from: Direction::FromTerminal,
            apdu,
            ..
        } => apdu.text().is_some(),
        _ => false,
    }
}
