//! The events of a trace as JSON, one line with one value per event.
//!
//! [`event`] appends the line of an event to a text. The file docs/JSON.md describes the format.
#![tactic(auto)]

mod events;
mod fields;
pub mod laws;
mod lines;
mod messages;
mod objects;
mod parts;
mod receipts;
mod strings;

pub use lines::event;
pub use receipts::receipt;
