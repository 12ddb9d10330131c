//! Machines, their replies, and the results of a line.

ghost use Rattle.std.specs.Prelude.{◌≡◌, ◌≢◌, ℕ, ◌+◌, ◌<◌, ◌≤◌, Bool, [], ◌++◌, IfOk, IsOk, OnErr, false, length};
ghost use Rattle.zvt_apdu.specs.Message.{Message};
ghost use Rattle.zvt_stream.specs.Answered.{Answered};
ghost use Rattle.zvt_stream.specs.LineRun.{there_at_once, reached};

use arrayvec::ArrayVec;
use std::alloc::{AllocError, Global};
use std::marker::Model;
use thiserror::Error;
use zvt_apdu::ApduView;
use zvt_grammar::Why;

/// The replies to one message: at most two messages, 260 bytes in all. That is room for an acknowledgement and any
/// message whose length is one byte.
#[derive(Drop)]
pub struct Answers {
    written: ArrayVec<u8, 260>,
    messages: u8,
}

impl Model for Answers {
    ghost use Rattle.std.specs.Prelude.{◌≡◌, ◌≤◌, [], length};
    ghost use Rattle.zvt_stream.specs.Answered.{Answered};

    ghost Value = { Answered };

    ghost view = { λ a. record { bytes = a.written.items; count = a.messages } };

    ghost invariant = { λ a. (a.messages ≤ 2) × (length a.written.items ≤ 260)
        × (a.messages ≡ 0 → a.written.items ≡ []) };
}

impl Answers {
    /// Creates an empty reply.
    pub fn new() -> Answers
        ensures { result ≡ record { bytes = []; count = 0 } }
    {
        Answers {
            written: ArrayVec::new(),
            messages: 0,
        }
    }

    /// Adds the bytes of one message.
    pub fn add(&mut self, message: &[u8])
        requires few { self.old.count < 2 }
        requires room { length self.old.bytes + length message.now ≤ 260 }
        ensures { self.new ≡ record { bytes = self.old.bytes ++ message.now; count = self.old.count + 1 } }
    {
        let _ = self.written.try_extend_from_slice(message);
        self.messages += 1;
    }

    /// Returns the bytes of all messages in order.
    pub fn bytes(&self) -> &[u8]
        ensures { result.now ≡ self.now.bytes }
    {
        self.written.as_slice()
    }

    /// Returns the number of messages.
    pub fn count(&self) -> usize
        ensures count { result ≡ self.now.count }
        ensures few { result ≤ 2 }
        ensures none { result ≡ 0 → self.now.bytes ≡ [] }
    {
        self.messages as usize
    }
}

/// One end of the protocol, independent of any device: receives one message at a time and returns the answers to
/// send.
pub trait Machine {
    /// From the first state, hearing the message gives these answers and leads to the second.
    ghost hears: { Self → Message → Answered → Self → Type 0 };

    /// What a lost connection makes of the machine.
    ghost loses: { Self → Self → Type 0 };

    /// What a malformed line makes of the machine.
    ghost malforms: { Self → Self → Type 0 };

    /// Whether the machine has come to rest.
    ghost is_resting: { Self → Bool };

    /// Whether hearing a message may allocate.
    ghost wants_memory: { Bool };

    /// Hears a borrowed message. If an allocation fails, the machine does not change.
    fn hear(&mut self, alloc: Global, apdu: &ApduView<'_>) -> Result<Answers, AllocError>
        ensures heard { IfOk result (λ answers. hears self.old apdu.now answers self.new) }
        ensures err { OnErr result (self.new ≡ self.old) }
        ensures frugal { wants_memory ≡ false → IsOk result };

    /// Whether the machine has come to rest.
    fn resting(&self) -> bool
        ensures { result ≡ is_resting self.now };

    /// Notifies the machine that the connection is gone: it was closed, a device or an allocation failed, or the
    /// limit on reads was reached.
    fn lost(&mut self)
        ensures { loses self.old self.new };

    /// Notifies the machine that the line brought bytes that start no message.
    fn malformed(&mut self)
        ensures { malforms self.old self.new };
}

/// When [`pump`](crate::pump) stops.
#[derive(Clone, Copy, Drop)]
pub enum Until {
    /// The machine is at rest.
    Rest,
    /// A message was written, or the machine is at rest.
    Sent,
}

impl Until {
    /// Returns whether no read is needed at all because the machine that was to come to rest is at rest.
    pub fn is_there(self, resting: bool) -> bool
        ensures { result ≡ there_at_once self resting }
    {
        match self {
            Until::Rest => resting,
            Until::Sent => false,
        }
    }

    /// Returns whether the condition holds after a turn.
    pub fn is_reached(self, resting: bool, sent: bool) -> bool
        ensures { result ≡ reached self resting sent }
    {
        match self {
            Until::Rest => resting,
            Until::Sent => sent || resting,
        }
    }
}

/// How a line broke. Give it up: a new line needs a new endpoint.
#[derive(Clone, Copy, Debug, Drop, PartialEq, Eq, Error)]
pub enum LineFault {
    /// A read failed, or took longer than the device waits.
    #[error("reading failed; the other end may have reset the connection")]
    Read,
    /// A write failed. A prefix of the bytes may have been written.
    #[error("a write failed")]
    Write,
    /// The line ended, with `have` bytes of an unfinished message.
    #[error("the other end closed the connection after {have} bytes of a message")]
    Ended { have: usize },
    /// All turns were used up before the condition held.
    #[error("gave up: the exchange was not finished within the read limit")]
    Turns,
    /// No message starts with the bytes up to and including the one at `place`, an offset from the start of the
    /// message.
    #[error("the other end sent an invalid message, refused at {place}: {why}")]
    Malformed { place: usize, why: Why },
    /// An allocation failed.
    #[error("out of memory")]
    Memory,
    /// The stream refused earlier bytes.
    #[error("the other end already sent an invalid message on this connection")]
    Stopped,
}
