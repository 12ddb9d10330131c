//! Writes the trace of a running line.
ghost use Rattle.std.specs.Prelude.{◌≡◌, ◌++◌, ◌∷◌, [], codes, IfOk, OnOk};
ghost use Rattle.zvt_io.specs.Devices.{CountsFailure, Writes};
ghost use Rattle.zvt_trace.specs.Lines.{piece_text};
ghost use Rattle.zvt_trace.specs.Observing.{EndsTrace};

use crate::direction::Direction;
use crate::listener::ListenerError;
use crate::observer::Observer;
use std::alloc::{AllocError, Global};
use zvt_io::{Failed, Sink};
use zvt_text::{Text, line};

/// The size of the line of a chunk of 4,096 bytes: its sign, its bytes as digits, and a line feed.
const MAX_LINE: usize = 2 + 2 * 4_096 + 1;

/// Writes a trace to a device: a line for each chunk that it observes.
///
/// It allocates once, for chunks of at most 4,096 bytes, and again only for a longer one.
#[derive(Drop)]
pub struct TraceWriter<T> {
    pub device: T,
    /// The buffer for the line of a chunk.
    text: Text,
}

impl<T: Drop> TraceWriter<T> {
    /// Creates a writer that appends to this device.
    pub fn new(alloc: Global, device: T) -> Result<TraceWriter<T>, AllocError>
        ensures { IfOk result (λ writer. writer.device ≡ device) }
    {
        let text = Text::with_capacity(alloc, MAX_LINE)?;
        Ok(TraceWriter { device, text })
    }
}

impl<T: Sink> Observer for TraceWriter<T> {
    ghost use Rattle.zvt_trace.specs.Observing.{MissesLine, Traces};

    ghost observes = { λ old from bytes new. Traces T.written T.failures from bytes old.device new.device };

    ghost misses = { λ old from bytes failure new. MissesLine T.written T.failures from bytes failure old.device
        new.device };

    fn observe(&mut self, from: Direction, bytes: &[u8]) -> Result<(), ListenerError> {
        spell_piece(&mut self.text, from, bytes)?;
        self.device.write_all(self.text.bytes())?;
        Ok(())
    }
}

/// Writes the line of a chunk into the buffer.
fn spell_piece(text: &mut Text, from: Direction, bytes: &[u8]) -> Result<(), AllocError>
    ensures { OnOk result (text.new ≡ piece_text from bytes.now) }
{
    text.clear();
    text.word(from.sign().as_bytes())?;
    line(text, b" ", bytes)
}

/// Records the end of the connection.
pub fn end_trace<T: Sink>(trace: &mut T) -> Result<(), Failed>
    ensures bytes { Writes (T.written trace.old) (T.written trace.new) result (codes "!" ++ 10 ∷ []) }
    ensures failures { CountsFailure (T.failures trace.old) (T.failures trace.new) result }
{
    trace.write_all(b"!\n")
}

/// Ends a trace and returns whether it is incomplete: because it lacked a chunk before, or because its end could not
/// be written.
pub fn ends_lacking<T: Sink>(lacks: bool, trace: &mut T) -> bool
    ensures { EndsTrace lacks (T.written trace.old) (T.written trace.new) (T.failures trace.old)
        (T.failures trace.new) result }
{
    let ended = end_trace(trace);
    lacks || ended.is_err()
}
