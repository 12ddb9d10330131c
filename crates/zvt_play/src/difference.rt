//! Differences between received bytes and a script.

use zvt_grammar::Why;

/// The reason why a step could not be played.
#[derive(Clone, Copy, Drop, PartialEq, Eq)]
pub enum Difference {
    /// Another message arrived after the first `at` bytes of the step. The stream lends it.
    Other { at: usize },
    /// This many more bytes arrived than the earlier steps await.
    Surplus { count: usize },
    /// The other side closed the connection, after `have` bytes of a message.
    Closed { have: usize },
    /// No message starts with the received bytes up to and including the one at `place`, an offset from the start of
    /// the message.
    Malformed { place: usize, why: Why },
    /// A read failed, or took longer than the device waits.
    Read,
    /// A write failed. A prefix of the step's bytes may have been written.
    Write,
}

/// The first step that could not be played, counted from 0, and why. All steps before it were played. The end of the
/// script counts as a step.
#[derive(Clone, Copy, Drop)]
pub struct Unplayed {
    pub step: usize,
    pub why: Difference,
}
