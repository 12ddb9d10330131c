//! Traces that arrive in chunks, from a pipe or a growing file.
ghost use Rattle.std.specs.Prelude.{◌≡◌, ◌≤◌, ◌+◌, ◌++◌, [], ℕ, List, length, IfErr, OnOk};
ghost use Rattle.std.specs.Str.Lines.{lines};
ghost use Rattle.zvt_grammar.specs.Lengths.{reading_of};
ghost use Rattle.zvt_trace.specs.Chunks.{AnswersFeed, AnswersRead, HasNoEnd, HasRead, IsBetweenLines, IsEnd};
ghost use Rattle.zvt_trace.specs.Chunks.{IsHeldFault, IsReady, ReadTo, walker_reading, walker_scope};
ghost use Rattle.zvt_trace.specs.Lines.{piece_text};
ghost use Rattle.zvt_trace.specs.Listening.{AnswersFrom, IsSound, most};
ghost use Rattle.zvt_trace.specs.TraceEvent.{At};
ghost use Rattle.zvt_trace.specs.Written.{limit};

use crate::direction::Direction;
use crate::fault::{Tally, TraceFault};
use crate::input::LIMIT;
use crate::lines::{last_newline, newline};
use crate::listener::{Listener, Scope};
use crate::walker::Progress;
use std::alloc::Global;
use zvt_grammar::Lengths;

/// The maximum size of a trace that arrives in chunks, in bytes.
const MOST: u64 = 1 << 62;

/// Walks over a trace that arrives in chunks. Emits the events of each complete line at once, and holds the bytes of
/// an unfinished line. It also accepts the bytes that a line spells in place of the line.
#[derive(Drop)]
pub struct Walker {
    progress: Progress,
    begun: Vec<u8>,
}

impl Walker {
    /// Creates a walker for a new trace that accepts lengths in these forms.
    pub fn new(alloc: Global, scope: Scope, lengths: Lengths) -> Walker
        ensures read { HasRead (reading_of lengths) scope [] [] result }
        ensures ready { IsReady result }
        ensures between { IsBetweenLines result }
        ensures reading { walker_reading result ≡ reading_of lengths }
        ensures scope { walker_scope result ≡ scope }
    {
        Walker {
            progress: Progress::new(alloc, scope, lengths),
            begun: Vec::new(alloc),
        }
    }

    /// Emits all events of the lines that end in this chunk, and holds the bytes of an unfinished line.
    ///
    /// A line is too long if it is longer than a whole trace in memory may be. After a fault, do not use the walker
    /// again.
    pub fn feed<L: Listener>(&mut self, listener: &mut L, chunk: &[u8]) -> Result<(), TraceFault>
        requires ready { IsReady self.old }
        requires few { length chunk.now ≤ limit }
        ensures reads { (bytes : List ℕ) (earlier : List At) → HasRead (walker_reading self.old) (walker_scope self.old)
            bytes earlier self.old → AnswersFeed (walker_reading self.old) L.hears L.fails (walker_scope self.old)
            (bytes ++ chunk.now) earlier self.new listener.old listener.new result }
        ensures ready { OnOk result (IsReady self.new) }
        ensures reading { walker_reading self.new ≡ walker_reading self.old }
        ensures scope { walker_scope self.new ≡ walker_scope self.old }
    {
        let size = self.progress.size() + self.begun.len() as u64 + chunk.len() as u64;
        if size > MOST {
            return Err(TraceFault::TooLong);
        }
        if self.begun.is_empty() {
            return self.begin(listener, chunk);
        }
        match newline(chunk) {
            None => self.hold(chunk),
            Some(end) => {
                let (line, rest) = chunk.split_at(end + 1);
                self.complete(listener, line)?;
                self.begin(listener, rest)
            }
        }
    }

    /// Emits the events of the line that spells these bytes of a side. No line may be unfinished.
    pub fn take<L: Listener>(
        &mut self,
        listener: &mut L,
        from: Direction,
        bytes: &[u8],
    ) -> Result<(), TraceFault>
        requires ready { IsReady self.old }
        requires between { IsBetweenLines self.old }
        ensures reads { (read : List ℕ) (earlier : List At) → HasRead (walker_reading self.old) (walker_scope self.old)
            read earlier self.old → AnswersFeed (walker_reading self.old) L.hears L.fails (walker_scope self.old)
            (read ++ piece_text from bytes.now) earlier self.new listener.old listener.new result }
        ensures ready { OnOk result (IsReady self.new) }
        ensures between { IsBetweenLines self.new }
        ensures reading { walker_reading self.new ≡ walker_reading self.old }
        ensures scope { walker_scope self.new ≡ walker_scope self.old }
    {
        let size = (bytes.len() as u64).saturating_mul(2).saturating_add(3);
        if size > MOST - self.progress.size() {
            return Err(TraceFault::TooLong);
        }
        self.progress.take(listener, from, bytes)
    }

    /// Ends the trace: emits the events of a last line without a line feed, and of incomplete messages. Returns the
    /// tally.
    pub fn finish<L: Listener>(self, listener: &mut L) -> Result<Tally, TraceFault>
        requires ready { IsReady self }
        ensures { (bytes : List ℕ) (earlier : List At) → HasRead (walker_reading self) (walker_scope self) bytes earlier
            self → AnswersFrom (walker_reading self) L.hears L.fails (walker_scope self) (lines bytes) earlier
            listener.old listener.new result }
    {
        let Walker {
            mut progress,
            begun,
        } = self;
        progress.read_lines(listener, begun.as_slice())?;
        progress.finish(listener)
    }

    /// Emits the events of the unfinished line, now that its end has arrived.
    fn complete<L: Listener>(&mut self, listener: &mut L, end: &[u8]) -> Result<(), TraceFault>
        requires ready { IsReady self.old }
        requires fits { self.old.progress.size + (length self.old.begun.items + length end.now) ≤ most }
        requires line { IsEnd end.now }
        ensures reads { (bytes rest : List ℕ) (earlier : List At) → ReadTo (walker_reading self.old)
            (walker_scope self.old) bytes (self.old.begun.items ++ (end.now ++ rest)) earlier self.old.progress
            → HasNoEnd self.old.begun.items → AnswersRead (walker_reading self.old) L.hears L.fails
            (walker_scope self.old) bytes rest earlier self.new.progress listener.old listener.new result }
        ensures empty { OnOk result (self.new.begun.items ≡ []) }
        ensures sound { OnOk result (IsSound self.new.progress) }
        ensures size { OnOk result (self.new.progress.size ≤ self.old.progress.size +
            (length self.old.begun.items + length end.now)) }
        ensures options { self.new.progress.options ≡ self.old.progress.options }
    {
        self.hold(end)?;
        self.progress.read_lines(listener, self.begun.as_slice())?;
        self.begun.clear();
        Ok(())
    }

    /// Emits the events of the lines that end in this chunk, when no line was unfinished before it.
    fn begin<L: Listener>(&mut self, listener: &mut L, chunk: &[u8]) -> Result<(), TraceFault>
        requires sound { IsSound self.old.progress }
        requires fits { self.old.progress.size + length chunk.now ≤ most }
        requires none { self.old.begun.items ≡ [] }
        ensures reads { (bytes : List ℕ) (earlier : List At) → ReadTo (walker_reading self.old) (walker_scope self.old)
            bytes chunk.now earlier self.old.progress → AnswersFeed (walker_reading self.old) L.hears L.fails
            (walker_scope self.old) bytes earlier self.new listener.old listener.new result }
        ensures ready { OnOk result (IsReady self.new) }
        ensures options { self.new.progress.options ≡ self.old.progress.options }
    {
        match last_newline(chunk) {
            None => self.hold(chunk),
            Some(last) => {
                let (whole, rest) = chunk.split_at(last + 1);
                self.progress.read_lines(listener, whole)?;
                self.hold(rest)
            }
        }
    }

    /// Holds these bytes of an unfinished line.
    fn hold(&mut self, bytes: &[u8]) -> Result<(), TraceFault>
        requires small { length self.old.begun.items ≤ limit }
        ensures held { OnOk result (self.new.begun.items ≡ self.old.begun.items ++ bytes.now) }
        ensures small { OnOk result (length self.new.begun.items ≤ limit) }
        ensures fault { IfErr result (IsHeldFault self.old bytes.now) }
        ensures progress { self.new.progress ≡ self.old.progress }
    {
        if bytes.len() > LIMIT - self.begun.len() {
            return Err(TraceFault::TooLong);
        }
        self.begun.extend_from_slice(bytes)?;
        Ok(())
    }
}
