//! Reads one side of a line.
ghost use Rattle.std.specs.Prelude.{◌≡◌, [], length, suc};
ghost use Rattle.zvt_grammar.specs.Lengths.{reading_of};
ghost use Rattle.zvt_trace.specs.Resuming.{announced, refused_size, size_by};
ghost use Rattle.zvt_trace.specs.Trace.{running};
ghost use Rattle.zvt_trace.specs.Written.{Follows, ReadsBy, Skips, is_everything, is_nothing, skipped_by};

use crate::listener::Scope;
use std::alloc::Global;
use zvt_grammar::Lengths;
use zvt_stream::Stream;

/// Returns the size of the whole message, if its first bytes announce it.
fn announced(bytes: &[u8]) -> Option<usize>
    ensures { result ≡ announced bytes.now }
{
    match bytes {
        [_, _, 0xFF, low, high, ..] => Some(5 + *low as usize + 256 * *high as usize),
        [_, _, 0xFF, ..] => None,
        [_, _, size, ..] => Some(3 + *size as usize),
        _ => None,
    }
}

/// The part of a side that is not read.
#[derive(Clone, Copy, PartialEq, Eq)]
pub(crate) enum Skipped {
    /// Everything is read.
    Nothing,
    /// The last `left` bytes of a refused message of `size` bytes.
    Rest { size: usize, left: usize },
    /// Everything until the connection is lost.
    Everything,
}

impl Skipped {
    /// Returns what to skip after a refusal at this place of a message with this announced size.
    fn after(scope: Scope, size: Option<usize>, place: usize) -> Skipped
        ensures { result ≡ skipped_by (size_by scope place size) (suc place) }
    {
        match scope {
            Scope::OneSide | Scope::WholeLine => Skipped::Everything,
            Scope::OneMessage => match size {
                Some(size) if place < size => Skipped::Rest {
                    size,
                    left: size - place - 1,
                },
                _ => Skipped::Everything,
            },
        }
    }
}

/// The reader of one side of the line: its stream, and what to skip.
#[derive(Drop)]
pub(crate) struct SideReader {
    pub(crate) stream: Stream,
    pub(crate) skipped: Skipped,
}

impl SideReader {
    /// Creates the reader of a side that has sent nothing.
    pub(crate) fn new(alloc: Global, lengths: Lengths) -> SideReader
        ensures follows { Follows (reading_of lengths) result (running []) }
        ensures reading { ReadsBy (reading_of lengths) result }
    {
        SideReader {
            stream: Stream::of(alloc, lengths),
            skipped: Skipped::Nothing,
        }
    }

    /// Whether the next bytes are read.
    #[inline(always)]
    pub(crate) fn reads(&self) -> bool
        ensures { result ≡ is_nothing self.now.skipped }
    {
        self.skipped == Skipped::Nothing
    }

    /// Whether nothing is read until the connection is lost.
    #[inline(always)]
    pub(crate) fn has_stopped(&self) -> bool
        ensures { result ≡ is_everything self.now.skipped }
    {
        self.skipped == Skipped::Everything
    }

    /// Starts skipping as the scope demands, after a refusal at byte `place` of the message.
    #[cold]
    #[inline(never)]
    pub(crate) fn refuse(&mut self, scope: Scope, place: usize)
        ensures skipped { suc place ≡ length self.old.stream.refused_bytes → self.new.skipped ≡ skipped_by
            (refused_size scope self.old.stream.refused_bytes place) (length self.old.stream.refused_bytes) }
        ensures stream { self.new.stream ≡ self.old.stream }
    {
        let size = announced(self.stream.refused_bytes());
        self.skipped = Skipped::after(scope, size, place);
    }

    /// Skips bytes, as far as they are to be skipped, and returns the rest.
    #[cold]
    #[inline(never)]
    pub(crate) fn skip<'b>(&mut self, bytes: &'b [u8]) -> &'b [u8]
        ensures skips { Skips self.old.skipped bytes.now self.new.skipped result.now }
        ensures stream { self.new.stream ≡ self.old.stream }
    {
        match self.skipped {
            Skipped::Rest { size, left } => {
                let count = left.min(bytes.len());
                self.skipped = Skipped::Rest {
                    size,
                    left: left - count,
                };
                bytes.split_at(count).1
            }
            Skipped::Nothing | Skipped::Everything => &[],
        }
    }
}
