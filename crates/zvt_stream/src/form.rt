//! How a line is read.

use zvt_grammar::Lengths;

/// How the bytes of a line become messages.
#[derive(Clone, Copy, Debug, Drop, PartialEq, Eq)]
pub struct LineForm {
    /// The accepted forms of length.
    pub lengths: Lengths,
    /// Whether the line goes on after a frame whose data is no message.
    pub passes: bool,
}
