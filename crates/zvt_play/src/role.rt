//! The part that the player takes.

use zvt_stream::LineForm;
use zvt_trace::Direction;

/// The side of a trace that is played, and how the bytes of the other side are read, in the trace and on the line.
#[derive(Clone, Copy, Debug, PartialEq, Eq)]
pub struct Role {
    pub own: Direction,
    pub form: LineForm,
}
