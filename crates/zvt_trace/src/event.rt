//! The events of a trace.

use crate::direction::Direction;
use zvt_apdu::ApduView;
use zvt_grammar::{Lengths, Why};
use zvt_stream::Head;

/// Where a message is refused, and why.
#[derive(Clone, Copy)]
pub struct Refusal<'a> {
    /// The bytes of the message before the first after which no message can follow.
    pub before: &'a [u8],
    /// That byte.
    pub byte: u8,
    pub why: Why,
}

impl<'a> Refusal<'a> {
    ghost use Rattle.std.specs.Prelude.{◌≡◌, length};
    ghost use Rattle.zvt_trace.specs.TraceEvent.{refused_head};

    /// Returns the control bytes of the message, as far as they have arrived.
    pub fn head(&self) -> Head
        ensures { result ≡ refused_head self.now.before.now self.now.byte }
    {
        Head::of(self.before).then(self.byte)
    }

    /// Returns the offset of the refused byte from the start of the message.
    pub fn place(&self) -> usize
        ensures { result ≡ length self.now.before.now }
    {
        self.before.len()
    }
}

/// An event at a line of a trace.
#[derive(Drop)]
pub enum TraceEvent<'a> {
    /// A complete message, and its bytes, which spell it with lengths of these forms.
    Message {
        from: Direction,
        apdu: ApduView<'a>,
        bytes: &'a [u8],
        lengths: Lengths,
    },
    /// No message starts with the bytes of this side.
    Refused {
        from: Direction,
        refusal: Refusal<'a>,
    },
    /// A piece after a refusal, which is not read.
    Unread {
        from: Direction,
    },
    /// Reading resumes after an invalid message, which was skipped by its announced size of `size` bytes.
    Resumed {
        from: Direction,
        size: usize,
    },
    /// The line ends after these first bytes of a message.
    CutOff {
        from: Direction,
        bytes: &'a [u8],
    },
    /// The line between till and terminal was lost.
    Lost,
}
