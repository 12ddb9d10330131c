//! Diagnostics for bad traces: which streams are bad and where, and why a line cannot be read. Commands print them
//! beside their output.
mod counts;
mod hint;
mod note;
mod notes;
mod plural;
mod skipped_lines;
mod writer;

pub use hint::{Hint, Reason, hint_on};
pub use writer::write_notes;
