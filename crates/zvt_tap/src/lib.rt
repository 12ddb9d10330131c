//! A tap on the line between a till and its terminal. It forwards bytes from each side to the other, and a log
//! observes them.
//!
//! [`tap_line`] passes a line's chunks on, in the order that a [`Readiness`] gives, over any devices. Its [`TapLog`]
//! has the trace of the line, the text that is shown, and the audit. [`tap_sockets`] does that with two sockets.
#![tactic(auto)]

mod fault;
mod line;
mod log;
mod relay;
mod sockets;
mod tracing;
mod watched;

pub use fault::TapFault;
pub use line::{Tapped, tap_line};
pub use log::{Found, TapLog, new_log};
pub use relay::{Ends, MAX_CHUNK, Readiness, run_relay};
pub use sockets::{Arrivals, SILENT_SECONDS, SocketTapped, tap_sockets};
pub use tracing::Tracing;
pub use watched::Watched;
