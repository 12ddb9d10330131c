//! Passes the events of one side of the line to a listener.
ghost use Rattle.std.specs.Prelude.{◌≡◌, ◌<◌, ℕ, length, false, true, Some};
ghost use Rattle.std.specs.Prelude.{OnOk, MatchResult};
ghost use Rattle.zvt_grammar.specs.Reading.{Reading};
ghost use Rattle.zvt_grammar.specs.Lengths.{reading_of};
ghost use Rattle.zvt_apdu.specs.Message.{Message};
ghost use Rattle.zvt_stream.specs.LineReading.{strictly};
ghost use Rattle.zvt_trace.specs.TraceEvent.{on};
ghost use Rattle.zvt_trace.specs.TraceEvent as trace_event;
ghost use Rattle.zvt_trace.specs.Trace.{Side};
ghost use Rattle.zvt_trace.specs.Emitting.{SideEnds, refusal_event};
ghost use Rattle.zvt_trace.specs.Listening.{EmitsEnd, EmitsRest, StaysSilent};
ghost use Rattle.zvt_trace.specs.Written.{ReadsBy, SkipsTo, StreamFollows, is_everything};

use crate::direction::Direction;
use crate::event::{Refusal, TraceEvent};
use crate::listener::{Listener, ListenerError, Scope};
use crate::side::{SideReader, Skipped};
use std::alloc::Global;
use zvt_apdu::view;
use zvt_grammar::{Lengths, Why};
use zvt_stream::Stream;

/// The options of a walk: its allocator, what a refusal leaves unread, and the accepted forms of length.
#[derive(Clone, Copy)]
pub(crate) struct WalkOptions {
    pub(crate) alloc: Global,
    pub(crate) scope: Scope,
    pub(crate) lengths: Lengths,
}

/// Emits the complete message in the stream.
#[inline(always)]
pub(crate) fn emit_message<L: Listener>(
    listener: &mut L,
    options: &WalkOptions,
    line: u64,
    from: Direction,
    stream: &Stream,
) -> Result<(), ListenerError>
    requires lent { (message : Message) × (stream.now.lent ≡ Some message) }
    requires reading { stream.now.reading ≡ strictly (reading_of options.now.lengths) }
    ensures { (message : Message) → stream.now.lent ≡ Some message → MatchResult result
        (λ _. L.hears listener.old (on line (trace_event.message from message)) listener.new)
        (λ failure. L.fails listener.old (on line (trace_event.message from message)) failure listener.new) }
{
    let Some(bytes) = stream.lent_bytes() else {
        return Ok(());
    };
    let apdu = view(bytes);
    let trace_event = TraceEvent::Message {
        from,
        apdu,
        bytes,
        lengths: options.lengths,
    };
    listener.hear(line, &trace_event)
}

/// Emits the refusal of a message at its byte `place`.
#[cold]
#[inline(never)]
pub(crate) fn emit_refusal<L: Listener>(
    listener: &mut L,
    line: u64,
    from: Direction,
    stream: &Stream,
    place: usize,
    why: Why,
) -> Result<(), ListenerError>
    requires { place < length stream.now.refused_bytes }
    ensures { MatchResult result
        (λ _. L.hears listener.old (refusal_event line from stream.now.refused_bytes place why) listener.new)
        (λ failure. L.fails listener.old (refusal_event line from stream.now.refused_bytes place why) failure listener.new) }
{
    let bytes = stream.refused_bytes();
    let refusal = Refusal {
        before: &bytes[..place],
        byte: bytes[place],
        why,
    };
    listener.hear(line, &TraceEvent::Refused { from, refusal })
}

/// Emits the event of a piece that is not read.
#[cold]
#[inline(never)]
pub(crate) fn emit_unread<L: Listener>(
    listener: &mut L,
    line: u64,
    from: Direction,
) -> Result<(), ListenerError>
    ensures { MatchResult result
        (λ _. L.hears listener.old (on line (trace_event.unread from)) listener.new)
        (λ failure. L.fails listener.old (on line (trace_event.unread from)) failure listener.new) }
{
    listener.hear(line, &TraceEvent::Unread { from })
}

/// If no byte of a refused message is left, emits that reading resumes. Returns whether it did.
#[cold]
#[inline(never)]
pub(crate) fn emit_resumed<L: Listener>(
    listener: &mut L,
    options: &WalkOptions,
    line: u64,
    from: Direction,
    reader: &mut SideReader,
) -> Result<bool, ListenerError>
    requires reading { reader.old.stream.reading ≡ strictly (reading_of options.now.lengths) }
    ensures reading { OnOk result (ReadsBy (reading_of options.now.lengths) reader.new) }
    ensures rest { (size left : ℕ) → SkipsTo reader.old size left → EmitsRest (reading_of options.now.lengths) L.hears
        L.fails line from size left reader.new listener.old listener.new result }
    ensures none { is_everything reader.old.skipped ≡ true → StaysSilent L.hears reader.old reader.new listener.old
        listener.new result }
{
    match reader.skipped {
        Skipped::Rest { size, left } => {
            if left > 0 {
                return Ok(false);
            }
            listener.hear(line, &TraceEvent::Resumed { from, size })?;
            *reader = SideReader::new(options.alloc, options.lengths);
            Ok(true)
        }
        Skipped::Nothing | Skipped::Everything => Ok(false),
    }
}

/// If this side holds an unfinished message, emits its cut-off.
#[cold]
#[inline(never)]
pub(crate) fn emit_truncation<L: Listener>(
    listener: &mut L,
    line: u64,
    from: Direction,
    stream: &Stream,
) -> Result<(), ListenerError>
    ensures { (r : Reading) (side : Side) → StreamFollows r stream.now side → EmitsEnd L.hears L.fails
        (SideEnds r line from side) 1 listener.old listener.new result }
{
    let bytes = stream.unfinished();
    if bytes.is_empty() {
        return Ok(());
    }
    listener.hear(line, &TraceEvent::CutOff { from, bytes })
}
