//! The text of a trace that arrives in chunks, from a pipe or a growing file.
ghost use Rattle.std.specs.Prelude.{[], ◌≡◌, ◌<◌, ◌≤◌, ◌++◌, ℕ, List, Option, length, Err, OnOk, false, true};
ghost use Rattle.std.specs.Io.KnownBytes.{Consumes};
ghost use Rattle.std.specs.Str.Lines.{lines};
ghost use Rattle.zvt_grammar.specs.Lengths.{reading_of};
ghost use Rattle.zvt_grammar.specs.Reading.{Reading};
ghost use Rattle.zvt_trace.specs.Chunks.{IsBetweenLines};
ghost use Rattle.zvt_trace.specs.Written.{limit};
ghost use Rattle.zvt_show.specs.Followed.{AnswersFollow, AnswersTurn, CountsWrites, HasWritten, IsFollowing};
ghost use Rattle.zvt_show.specs.Written.{AnswersLinesBy};
ghost use Rattle.zvt_trace.specs.declared.listener.Scope.{Scope};
ghost use Rattle.zvt_show.specs.declared.render.Style.{Style};

use crate::pages::{Pages, Printer, flush};
use crate::render::Style;
use std::alloc::Global;
use zvt_grammar::Lengths;
use zvt_io::{Sink, Source};
use zvt_trace::{Scope, Tally, TraceFault, Walker, read_chunk};

/// The number of bytes that are read at once.
const CHUNK: usize = 65_536;

/// Writes the text of a trace in this style, as [`render_trace`] does, while the trace arrives.
///
/// After each read, writes the text of all complete lines before it reads again. The trace may have any
/// length; a line has at most as many bytes as a trace in memory.
///
/// [`render_trace`]: crate::render_trace
pub fn follow_trace<R: Source, W: Sink>(
    alloc: Global,
    style: Style,
    scope: Scope,
    lengths: Lengths,
    reader: &mut R,
    writer: &mut W,
) -> Result<Tally, TraceFault>
    ensures follows { (taken : List ℕ) × Consumes (R.remaining reader.old) (R.remaining reader.new) taken
        × AnswersFollow (reading_of lengths) scope style taken (R.remaining reader.new) (W.written writer.old)
        (W.written writer.new) result }
    ensures read { result ≡ Err TraceFault.Read → R.failures reader.old < R.failures reader.new }
    ensures write { result ≡ Err TraceFault.Write → W.failures writer.old < W.failures writer.new }
{
    let mut follower = Follower::new(alloc, style, scope, lengths);
    let mut buffer = [0; CHUNK];
    for _turn in 0..u64::MAX {
        let taken = read_chunk(reader, &mut buffer)?;
        if taken == 0 {
            return follower.finish(writer);
        }
        follower.feed(writer, &buffer[..taken])?;
    }
    Err(TraceFault::TooLong)
}

/// Prints a growing trace in turns: each turn prints the lines that end in the new chunk.
#[derive(Drop)]
pub struct Follower {
    pages: Pages,
    walker: Walker,
}

impl Follower {
    /// Creates a follower that has read nothing.
    pub fn new(alloc: Global, style: Style, scope: Scope, lengths: Lengths) -> Follower
        ensures written { (held : Option (List ℕ)) → HasWritten (reading_of lengths) scope style [] held held result }
        ensures following { IsFollowing result }
        ensures between { IsBetweenLines result.walker }
    {
        Follower {
            pages: Pages::new(alloc, style),
            walker: Walker::new(alloc, scope, lengths),
        }
    }

    /// Writes the text of all lines that end in this chunk, up to a fault.
    pub fn feed<W: Sink>(&mut self, writer: &mut W, chunk: &[u8]) -> Result<(), TraceFault>
        requires following { IsFollowing self.old }
        requires few { length chunk.now ≤ limit }
        ensures writes { (r : Reading) (scope : Scope) (style : Style) (bytes : List ℕ) (first : Option (List ℕ))
            → HasWritten r scope style bytes first (W.written writer.old) self.old → AnswersTurn r scope style
            (bytes ++ chunk.now) first (W.written writer.new) self.new result }
        ensures following { OnOk result (IsFollowing self.new) }
        ensures counts { (r : Reading) (scope : Scope) (style : Style) (bytes : List ℕ) (first : Option (List ℕ))
            → HasWritten r scope style bytes first (W.written writer.old) self.old
            → CountsWrites (W.failures writer.old) (W.failures writer.new) result }
    {
        let mut pages = self.pages.take();
        let mut printer = Printer {
            pages: &mut pages,
            times: &[],
            writer,
        };
        let answer = self.walker.feed(&mut printer, chunk);
        self.pages = pages;
        flush(&mut self.pages.block, writer)?;
        answer
    }

    /// Writes the text of a last line without a line feed, and of incomplete messages.
    pub fn finish<W: Sink>(self, writer: &mut W) -> Result<Tally, TraceFault>
        requires following { IsFollowing self }
        ensures writes { (r : Reading) (scope : Scope) (style : Style) (bytes : List ℕ) (first : Option (List ℕ))
            → HasWritten r scope style bytes first (W.written writer.old) self → AnswersLinesBy r scope style
            (lines bytes) first (W.written writer.new) result }
        ensures counts { (r : Reading) (scope : Scope) (style : Style) (bytes : List ℕ) (first : Option (List ℕ))
            → HasWritten r scope style bytes first (W.written writer.old) self → CountsWrites (W.failures writer.old)
            (W.failures writer.new) result }
    {
        let Follower { mut pages, walker } = self;
        let mut printer = Printer {
            pages: &mut pages,
            times: &[],
            writer,
        };
        let answer = walker.finish(&mut printer);
        flush(&mut pages.block, writer)?;
        answer
    }
}
