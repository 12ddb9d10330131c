//! The notes of a whole trace.
ghost use Rattle.std.specs.Prelude.{◌≡◌, ◌≢◌, ◌<◌, ◌≤◌, length, Err, IfErr, OnOk};
ghost use Rattle.std.specs.Str.Lines.{lines};
ghost use Rattle.zvt_grammar.specs.Lengths.{reading_of};
ghost use Rattle.zvt_trace.specs.Written.{limit};
ghost use Rattle.zvt_show.specs.NotesWritten.{AnswersNotes};

use crate::diagnostics::notes::Notes;
use std::alloc::Global;
use zvt_grammar::Lengths;
use zvt_io::Sink;
use zvt_text::Text;
use zvt_trace::{ListenerError, Scope, Tally, TraceFault, walk};

/// Writes a line for each stream that was refused or cut off: the line of the trace, the sender, the name of the
/// incomplete message, and the place in it. For a refusal it adds the fatal byte and the reason. It writes no other
/// byte of the message, which may contain a card number.
///
/// Another line says how many lines were not read after that, up to the next lost connection or the end. The last line
/// has the numbers of messages and bad streams. Writes nothing if no stream is bad.
///
/// The streams accept lengths in this form. If a line can't be read, the notes cover the lines before it. Writes the
/// text once, at the end.
pub fn write_notes<W: Sink>(
    alloc: Global,
    scope: Scope,
    lengths: Lengths,
    trace: &[u8],
    device: &mut W,
) -> Result<(), ListenerError>
    requires { length trace.now ≤ limit }
    ensures writes { AnswersNotes (reading_of lengths) scope (lines trace.now) (W.written device.old)
        (W.written device.new) result }
    ensures write { result ≡ Err ListenerError.Write → W.failures device.old < W.failures device.new }
{
    let mut notes = Notes::new(alloc, scope);
    let answer = walk(&mut notes, alloc, scope, lengths, trace);
    has_memory(&answer)?;
    notes.close()?;
    device.write_all(notes.text.bytes())?;
    Ok(())
}

/// Returns the fault of the walk if it was out of memory. After every other end, the notes of the events before stand.
fn has_memory(answer: &Result<Tally, TraceFault>) -> Result<(), ListenerError>
    ensures had { OnOk result (answer.now ≢ Err TraceFault.Memory) }
    ensures fault { IfErr result (λ failure. failure ≡ ListenerError.Memory) }
{
    match answer {
        Err(TraceFault::Memory) => Err(ListenerError::Memory),
        Ok(_) => Ok(()),
        Err(
            TraceFault::Trace { .. } | TraceFault::TooLong | TraceFault::Read | TraceFault::Write,
        ) => Ok(()),
    }
}
