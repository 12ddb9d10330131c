//! Traces of the line between a till and its terminal.
//!
//! [`read_trace`] reads a whole trace. [`walk`] passes its events to a [`Listener`], line by line. A [`Walker`] takes a
//! trace in chunks, as [`read_chunk`] reads them. A [`Line`] takes the bytes of a line itself, without a trace.
//!
//! An [`Observer`] sees the chunks of a line as they pass. An [`Observed`] device shows its bytes to an observer. A
//! [`TraceWriter`] is an observer that writes a trace.
//!
//! A [`Moment`] is written and read as a time mark, a comment line. [`moments_of`] finds the moments of a trace's
//! lines.
#![tactic(auto)]

mod alone;
mod both;
mod chunks;
mod decoder;
mod direction;
mod emit;
mod event;
mod fault;
mod feed;
mod ghost_text;
mod input;
mod laws;
mod line;
mod lines;
mod listener;
mod marking;
mod moment;
mod moments;
mod observed;
mod observer;
mod side;
mod spelled;
mod tally;
mod until_refused;
mod walker;
mod writer;

pub use alone::Alone;
pub use both::Both;
pub use chunks::Walker;
pub use decoder::Line;
pub use direction::Direction;
pub use event::{Refusal, TraceEvent};
pub use fault::{Tally, TraceFault, TraceLineError};
pub use input::{read_chunk, read_trace};
pub use laws::{
    chunks_are_lines, comments_mean_nothing, mark_rows, marks_read_back, moment_rows, scopes_agree,
};
pub use lines::next_line;
pub use listener::{Listener, ListenerError, Scope};
pub use marking::{Marking, MomentSource};
pub use moment::Moment;
pub use moments::{Moments, Timed, moments_of, time_at, went_back};
pub use observed::Observed;
pub use observer::Observer;
pub use spelled::spelled_bytes;
pub use until_refused::UntilRefused;
pub use walker::walk;
pub use writer::{TraceWriter, end_trace, ends_lacking};
pub use zvt_stream::Head;
