//! Feeds the pieces of a trace to the readers of their sides.
ghost use Rattle.std.specs.Prelude.{◌≡◌, ◌<◌, ◌≤◌, ◌+◌, length, IfOk, OnOk};
ghost use Rattle.zvt_grammar.specs.Lengths.{reading_of};
ghost use Rattle.zvt_trace.specs.Meanings.{SpellsBytes, bytes_in, bytes_with};
ghost use Rattle.zvt_trace.specs.Trace.{Side};
ghost use Rattle.zvt_trace.specs.Listening.{EmitsBytes, EmitsFirst, EmitsPiece};
ghost use Rattle.zvt_trace.specs.Written.{Follows, ReadsBy};

use crate::direction::Direction;
use crate::emit::{WalkOptions, emit_message, emit_refusal, emit_resumed, emit_unread};
use crate::line::CHUNK;
use crate::listener::{Listener, ListenerError};
use crate::side::SideReader;
use crate::spelled;
use zvt_stream::{FedView, FeedError};

/// The content of a piece: its first bytes, and the text that spells the rest.
#[derive(Clone, Copy)]
pub(crate) struct Piece<'a> {
    pub(crate) bytes: &'a [u8],
    pub(crate) undecoded: &'a [u8],
}

/// Whether there was an event, and the bytes after it.
#[derive(Clone, Copy)]
struct Next<'b> {
    any: bool,
    rest: &'b [u8],
}

/// Emits the next event in these bytes of a side, if there is one: a message, a refusal, or that reading resumes. Most
/// chunks end with a message.
#[inline(always)]
fn feed_next<'b, L: Listener>(
    listener: &mut L,
    options: &WalkOptions,
    line: u64,
    from: Direction,
    reader: &mut SideReader,
    bytes: &'b [u8],
) -> Result<Next<'b>, ListenerError>
    requires reading { ReadsBy (reading_of options.now.lengths) reader.old }
    ensures reading { OnOk result (ReadsBy (reading_of options.now.lengths) reader.new) }
    ensures emits { (side : Side) → Follows (reading_of options.now.lengths) reader.old side
        → EmitsFirst (reading_of options.now.lengths) L.hears L.fails options.now.scope line from side bytes.now
        reader.new listener.old listener.new result }
    ensures less { IfOk result (λ next. 0 < length next.rest.now → length next.rest.now < length bytes.now) }
{
    let held = reader.stream.held();
    match reader.stream.feed_view(bytes) {
        Ok(FedView::Message { taken }) => {
            emit_message(listener, options, line, from, &reader.stream)?;
            let rest = bytes.split_at(taken).1;
            Ok(Next { any: true, rest })
        }
        Ok(FedView::More) => Ok(Next {
            any: false,
            rest: &[],
        }),
        Ok(FedView::Refused { place, why }) => {
            let rest = bytes.split_at(place - held + 1).1;
            emit_refusal(listener, line, from, &reader.stream, place, why)?;
            reader.refuse(options.scope, place);
            emit_resumed(listener, options, line, from, reader)?;
            Ok(Next { any: true, rest })
        }
        Err(FeedError::Stopped) => {
            let rest = reader.skip(bytes);
            let any = emit_resumed(listener, options, line, from, reader)?;
            Ok(Next { any, rest })
        }
        Err(FeedError::Memory) => Err(ListenerError::Memory),
    }
}

/// Emits all events of these bytes of a side. Returns whether there was one.
#[inline(always)]
fn feed_bytes<L: Listener>(
    listener: &mut L,
    options: &WalkOptions,
    line: u64,
    from: Direction,
    reader: &mut SideReader,
    bytes: &[u8],
) -> Result<bool, ListenerError>
    requires reading { ReadsBy (reading_of options.now.lengths) reader.old }
    ensures reading { OnOk result (ReadsBy (reading_of options.now.lengths) reader.new) }
    ensures emits { (side : Side) → Follows (reading_of options.now.lengths) reader.old side
        → EmitsBytes (reading_of options.now.lengths) L.hears L.fails options.now.scope line from side bytes.now
        reader.new listener.old listener.new result }
{
    let mut any = false;
    let mut rest = bytes;
    'bytes: while !rest.is_empty() {
        let next = feed_next(listener, options, line, from, reader, rest)?;
        any |= next.any;
        rest = next.rest;
    }
    Ok(any)
}

/// Emits the events of all bytes of a piece. Decodes its text in chunks, without allocating. Returns whether there was
/// an event.
fn feed_parts<L: Listener>(
    listener: &mut L,
    options: &WalkOptions,
    line: u64,
    from: Direction,
    reader: &mut SideReader,
    piece: Piece<'_>,
) -> Result<bool, ListenerError>
    requires reading { ReadsBy (reading_of options.now.lengths) reader.old }
    requires spelled { SpellsBytes piece.undecoded.now }
    ensures reading { OnOk result (ReadsBy (reading_of options.now.lengths) reader.new) }
    ensures emits { (side : Side) → Follows (reading_of options.now.lengths) reader.old side
        → EmitsBytes (reading_of options.now.lengths) L.hears L.fails options.now.scope line from side
        (bytes_in piece.entry) reader.new listener.old listener.new result }
{
    // Through a listener lent once more: so what each byte of a long text runs through has one caller, and is inlined.
    let mut lent = &mut *listener;
    let mut any = feed_bytes(&mut lent, options, line, from, reader, piece.bytes)?;
    let mut buffer = [0; CHUNK];
    let mut rest = piece.undecoded;
    'chunks: while !rest.is_empty() {
        let Some((count, after)) = spelled::read(rest, &mut buffer) else {
            return Ok(any);
        };
        let later = feed_bytes(listener, options, line, from, reader, &buffer[..count])?;
        any |= later;
        rest = after;
    }
    Ok(any)
}

/// Emits the events of a piece, or that it is not read.
#[inline(never)]
fn feed_any_piece<L: Listener>(
    listener: &mut L,
    options: &WalkOptions,
    line: u64,
    from: Direction,
    reader: &mut SideReader,
    bytes: &[u8],
    undecoded: &[u8],
) -> Result<(), ListenerError>
    requires reading { ReadsBy (reading_of options.now.lengths) reader.old }
    requires spelled { SpellsBytes undecoded.now }
    ensures reading { OnOk result (ReadsBy (reading_of options.now.lengths) reader.new) }
    ensures emits { (side : Side) → Follows (reading_of options.now.lengths) reader.old side
        → EmitsPiece (reading_of options.now.lengths) L.hears L.fails options.now.scope line from side
        (bytes_with bytes.now undecoded.now) reader.new listener.old listener.new result }
{
    let reads = reader.reads();
    let piece = Piece { bytes, undecoded };
    let any = feed_parts(listener, options, line, from, reader, piece)?;
    if reads || any {
        return Ok(());
    }
    emit_unread(listener, line, from)
}

/// Emits the events of a piece, or that it is not read. Most sides are read, and most pieces have no text left.
#[inline(always)]
pub(crate) fn feed_piece<L: Listener>(
    listener: &mut L,
    options: &WalkOptions,
    line: u64,
    from: Direction,
    reader: &mut SideReader,
    piece: Piece<'_>,
) -> Result<(), ListenerError>
    requires reading { ReadsBy (reading_of options.now.lengths) reader.old }
    requires spelled { SpellsBytes piece.undecoded.now }
    ensures reading { OnOk result (ReadsBy (reading_of options.now.lengths) reader.new) }
    ensures emits { (side : Side) → Follows (reading_of options.now.lengths) reader.old side
        → EmitsPiece (reading_of options.now.lengths) L.hears L.fails options.now.scope line from side
        (bytes_in piece.entry) reader.new listener.old listener.new result }
{
    let Piece { bytes, undecoded } = piece;
    if !undecoded.is_empty() || !reader.reads() {
        // Through a listener lent once more: so what each byte runs through has one caller, and is inlined there.
        let mut lent = listener;
        return feed_any_piece(&mut lent, options, line, from, reader, bytes, undecoded);
    }
    feed_bytes(listener, options, line, from, reader, bytes)?;
    Ok(())
}
