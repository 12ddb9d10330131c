//! Assembles messages from the chunks of a line, and runs a machine that receives and answers them.
#![tactic(auto)]

mod advance;
mod buffer;
mod endpoint;
mod engine;
mod form;
mod head;
mod judge;
pub mod laws;
mod line;
mod starting;
mod stream;
mod transitions;
mod unread;

pub use buffer::{Held, MAX_APDU_LEN};
pub use endpoint::Endpoint;
pub use engine::{pump, send};
pub use form::LineForm;
pub use head::Head;
pub use judge::{DecodeRun, Judge, Judged, Steps};
pub use line::{Answers, LineFault, Machine, Until};
pub use stream::{Fed, FedView, FeedError, Stream, Truncated};
