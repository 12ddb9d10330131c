//! Shows the line between a till and its terminal as text.
//!
//! [`render_trace`] writes a trace in memory in a [`Style`]. [`follow_trace`] writes a trace while it arrives.
//! [`Shown`] is an observer that writes a line while its chunks pass, beside another listener.
#![tactic(auto)]

pub mod diagnostics;
mod follow;
mod pages;
mod receipts;
mod render;
mod shown;

pub use follow::{Follower, follow_trace};
pub use pages::render_trace;
pub use receipts::ReceiptOptions;
pub use render::{Style, render_event};
pub use shown::{Shown, ShownToEnd};
