//! Writes the text of a trace in blocks.
ghost use Rattle.std.specs.Prelude.{[], ◌≡◌, ◌<◌, ◌≤◌, length, Err, IfErr, IfOk, OnErr, OnOk};
ghost use Rattle.std.specs.Io.KnownBytes.{Appends, Keeps};
ghost use Rattle.std.specs.Str.Lines.{lines};
ghost use Rattle.zvt_grammar.specs.Lengths.{reading_of};
ghost use Rattle.zvt_io.specs.Devices.{CountsFailure};
ghost use Rattle.zvt_trace.specs.Written.{AppendsPrefix, limit};
ghost use Rattle.zvt_show.specs.Text.{rendering_of, times_if};
ghost use Rattle.zvt_show.specs.Written.{AnswersRendered, Extends, IsShortOf, after};

use crate::render::{Style, render_event, render_timed};
use std::alloc::{AllocError, Global};
use std::mem;
use zvt_grammar::Lengths;
use zvt_io::Sink;
use zvt_text::Text;
use zvt_trace::{
    Listener, ListenerError, Moments, Scope, Tally, Timed, TraceEvent, TraceFault, moments_of, walk,
};

/// A block of text that has reached this size is written.
const BLOCK: usize = 65_536;

/// Writes the text of a trace: each message, and each refusal, cut and loss. Output goes out in blocks; the last block
/// is written even if the walk fails. In the styles `Json` and `JsonReceipts` each line of the text is one JSON value.
///
/// `timed` says whether the text of an event begins with the moment of its line, if the line has one. `scope` says what
/// a refusal leaves unread, `lengths` selects the accepted forms of length. The style `Join` writes each complete
/// message in its one strict spelling. A stream that is refused or cut off counts as bad.
pub fn render_trace<W: Sink>(
    alloc: Global,
    style: Style,
    timed: bool,
    scope: Scope,
    lengths: Lengths,
    trace: &[u8],
    writer: &mut W,
) -> Result<Tally, TraceFault>
    requires { length trace.now ≤ limit }
    ensures writes { AnswersRendered (reading_of lengths) scope (rendering_of style timed (lines trace.now))
        (lines trace.now) (W.written writer.old) (W.written writer.new) result }
    ensures write { result ≡ Err TraceFault.Write → W.failures writer.old < W.failures writer.new }
{
    let times = times_if(alloc, timed, trace)?;
    let mut pages = Pages::new(alloc, style);
    let mut printer = Printer {
        pages: &mut pages,
        times: times.as_slice(),
        writer,
    };
    let answer = walk(&mut printer, alloc, scope, lengths, trace);
    flush(&mut pages.block, writer)?;
    answer
}

/// Returns the lines of a trace that have a moment, or none if their moments are not wanted.
fn times_if(alloc: Global, timed: bool, trace: &[u8]) -> Result<Vec<Timed>, AllocError>
    ensures { IfOk result (λ times. times.items ≡ times_if timed (lines trace.now)) }
{
    if !timed {
        return Ok(Vec::new(alloc));
    }
    let Moments { times, .. } = moments_of(alloc, trace)?;
    Ok(times)
}

/// The text that is not written yet. The text of each event joins the block whole or not at all.
#[derive(Drop)]
pub(crate) struct Pages {
    alloc: Global,
    style: Style,
    pub(crate) block: Text,
}

impl Pages {
    /// Creates pages of this style without text.
    pub(crate) fn new(alloc: Global, style: Style) -> Pages
        ensures style { result.style ≡ style }
        ensures empty { result.block ≡ [] }
    {
        Pages {
            alloc,
            style,
            block: Text::new(alloc),
        }
    }

    /// Takes the pages out, and leaves empty ones of the same style.
    pub(crate) fn take(&mut self) -> Pages
        ensures { result ≡ self.old }
    {
        let empty = Pages::new(self.alloc, self.style);
        mem::replace(self, empty)
    }
}

/// Writes the text of events to a borrowed device.
#[derive(Drop)]
pub(crate) struct Printer<'p, W> {
    pub(crate) pages: &'p mut Pages,
    /// The lines whose moments are written.
    pub(crate) times: &'p [Timed],
    pub(crate) writer: &'p mut W,
}

impl<W: Sink> Listener for Printer<'_, W> {
    ghost use Rattle.zvt_show.specs.Printed.{FailsPrinting, Prints};

    ghost hears = { Prints W.written W.failures };

    ghost fails = { FailsPrinting W.written W.failures };

    #[inline(always)]
    fn hear(&mut self, number: u64, trace_event: &TraceEvent<'_>) -> Result<(), ListenerError> {
        let pages = &mut *self.pages;
        flush_full(&mut pages.block, self.writer)?;
        render_timed(
            &mut pages.block,
            pages.alloc,
            pages.style,
            self.times,
            number,
            trace_event,
        )?;
        Ok(())
    }
}

/// Writes the text of events to a device of its own.
#[derive(Drop)]
pub(crate) struct Printing<W> {
    pub(crate) pages: Pages,
    pub(crate) output: W,
}

impl<W: Sink> Listener for Printing<W> {
    ghost use Rattle.zvt_show.specs.Printed.{printing_page};
    ghost use Rattle.zvt_show.specs.Written.{FailsEvent, WritesEvent};

    ghost hears = { λ old event new. WritesEvent event (printing_page W.written W.failures old)
        (printing_page W.written W.failures new) };

    ghost fails = { λ old event failure new. FailsEvent failure (printing_page W.written W.failures old)
        (printing_page W.written W.failures new) };

    #[inline(always)]
    fn hear(&mut self, number: u64, trace_event: &TraceEvent<'_>) -> Result<(), ListenerError> {
        flush_full(&mut self.pages.block, &mut self.output)?;
        render_event(
            &mut self.pages.block,
            self.pages.alloc,
            self.pages.style,
            number,
            trace_event,
        )?;
        Ok(())
    }
}

/// Writes a full block, before the text of the next event joins it.
#[inline(always)]
fn flush_full<W: Sink>(block: &mut Text, writer: &mut W) -> Result<(), ListenerError>
    ensures same { OnOk result (Keeps (after (W.written writer.old) block.old)
        (after (W.written writer.new) block.new)) }
    ensures fault { IfErr result (λ failure. failure ≡ ListenerError.Write) }
    ensures failures { CountsFailure (W.failures writer.old) (W.failures writer.new) result }
    ensures short { OnErr result (IsShortOf (after (W.written writer.old) block.old)
        (after (W.written writer.new) block.new)) }
    ensures extends { Extends (W.written writer.old) (W.written writer.new) }
{
    if block.size() < BLOCK {
        return Ok(());
    }
    flush(block, writer)
}

/// Writes the block to the device and empties it, also where the write fails.
#[inline(never)]
pub(crate) fn flush<W: Sink>(block: &mut Text, writer: &mut W) -> Result<(), ListenerError>
    ensures bytes { OnOk result (Appends (W.written writer.old) (W.written writer.new) block.old) }
    ensures fault { IfErr result (λ failure. failure ≡ ListenerError.Write) }
    ensures failures { CountsFailure (W.failures writer.old) (W.failures writer.new) result }
    ensures empty { block.new ≡ [] }
    ensures prefix { OnErr result (AppendsPrefix (W.written writer.old) (W.written writer.new) block.old) }
{
    let answer = writer.write_all(block.bytes());
    block.clear();
    answer?;
    Ok(())
}
