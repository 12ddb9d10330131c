//! The JSON line of an event, written completely or not at all.
ghost use Rattle.std.specs.Prelude.{◌≡◌, ◌++◌, ◌∷◌, [], ℕ, List, length, IfOk, OnErr, OnOk};
ghost use Rattle.zvt_grammar.specs.Lengths.{reading_of};
ghost use Rattle.zvt_grammar.specs.Reading.{shortest};
ghost use Rattle.zvt_apdu.specs.Grammar.{Spells};
ghost use Rattle.zvt_text.specs.Writing.{Puts};
ghost use Rattle.zvt_trace.specs.TraceEvent.{HasItsBytes, event_of, on};
ghost use Rattle.zvt_json.specs.Events.{AddsLine, HasSize};
ghost use Rattle.zvt_json.specs.Texts.{event_text};

use crate::events;
use crate::messages::{self, Origin};
use std::alloc::{AllocError, Global};
use zvt_apdu::{ApduView, owned, size};
use zvt_grammar::Lengths;
use zvt_text::cursor::{Full, push};
use zvt_text::{Says, Text};
use zvt_trace::TraceEvent;

/// Appends the JSON line of an event at a line of the trace. Never writes the password of a message, and writes only
/// the size of the fields 22, 23, 24, 2D, 3A and 3D (card number, tracks, verification value, password). If an
/// allocation fails, the text does not change.
#[inline(always)]
pub fn event(
    text: &mut Text,
    alloc: Global,
    line: u64,
    trace_event: &TraceEvent<'_>,
) -> Result<(), AllocError>
    requires { HasItsBytes trace_event.now }
    ensures adds { OnOk result (AddsLine (on line (event_of trace_event.now)) text.old text.new) }
    ensures keeps { OnErr result (text.new ≡ text.old) }
{
    let size = size_in(alloc, trace_event)?;
    text.add(&EventLine {
        line,
        size,
        trace_event,
    })
}

/// Returns the size of a message with the shortest lengths, and 0 for another event.
#[inline(always)]
fn size_in(alloc: Global, trace_event: &TraceEvent<'_>) -> Result<usize, AllocError>
    requires { HasItsBytes trace_event.now }
    ensures { IfOk result (λ size. HasSize size (event_of trace_event.now)) }
{
    match trace_event {
        TraceEvent::Message {
            apdu,
            bytes,
            lengths,
            ..
        } => match lengths {
            Lengths::Shortest => Ok(bytes.len()),
            Lengths::Padded => normal_size(alloc, apdu),
        },
        TraceEvent::Refused { .. }
        | TraceEvent::Unread { .. }
        | TraceEvent::Resumed { .. }
        | TraceEvent::CutOff { .. }
        | TraceEvent::Lost => Ok(0),
    }
}

/// Returns the size that a message with padded lengths would have with the shortest ones.
#[inline(never)]
fn normal_size(alloc: Global, apdu: &ApduView<'_>) -> Result<usize, AllocError>
    ensures { IfOk result (λ size. (spelling : List ℕ) × Spells shortest apdu.now spelling × (size ≡ length spelling)) }
{
    let message = owned(alloc, apdu)?;
    Ok(size(&message))
}

/// The line of an event. A message has this size with the shortest lengths.
#[derive(Drop)]
struct EventLine<'a> {
    line: u64,
    size: usize,
    trace_event: &'a TraceEvent<'a>,
}

impl Says for EventLine<'_> {
    ghost said = { λ e. event_text e.line e.size (event_of e.trace_event.now) ++ 10 ∷ [] };

    #[inline(always)]
    fn put(&self, buffer: &mut [u8]) -> Result<usize, Full> {
        let at = object(buffer, self.line, self.size, self.trace_event)?;
        push(buffer, at, b'\n')
    }
}

/// Writes the object of an event at the start of the buffer.
#[inline(always)]
fn object(
    buffer: &mut [u8],
    line: u64,
    size: usize,
    trace_event: &TraceEvent<'_>,
) -> Result<usize, Full>
    ensures { Puts result 0 buffer.old buffer.new (event_text line size (event_of trace_event.now)) }
{
    match trace_event {
        TraceEvent::Message { from, apdu, .. } => {
            let from = *from;
            messages::message(buffer, 0, Origin { from, line, size }, apdu)
        }
        TraceEvent::Refused { from, refusal } => events::refused(buffer, 0, *from, line, *refusal),
        TraceEvent::Unread { from } => events::stopped(buffer, 0, *from, line),
        TraceEvent::Resumed { from, size } => events::resumed(buffer, 0, *from, line, *size),
        TraceEvent::CutOff { from, bytes } => events::truncated(
            buffer,
            0,
            *from,
            line,
            bytes.len(),
        ),
        TraceEvent::Lost => events::lost(buffer, 0, line),
    }
}
