//! Runs of a till, of a simulated terminal, and of both ends of a line, over any devices and, in [`tcp`], over sockets.
//!
//! A run makes steps one after another, each named by a word ([`step_of`]), and writes the outcome of each. Use
//! [`run_till_end`] for a till whose terminal is elsewhere, [`run_both_ends`] for a till and a terminal in one process,
//! and [`serve`] for a terminal.
#![tactic(auto)]

mod arguments;
mod asking;
mod book_objects;
mod books;
mod both_ends;
mod fault;
mod laws;
mod line_end;
mod notes;
mod objects;
mod order_notes;
mod outcomes;
mod plans;
mod quoted;
mod reversals;
mod service;
mod settings;
mod settled_sum;
mod settlements;
mod steps;
pub mod tcp;
mod till_end;
mod till_runs;
mod trace_marks;

pub use arguments::{Ends, Step, result_code, step_of};
pub use asking::{Asked, Ended};
pub use books::{write_book, write_records};
pub use both_ends::{BothEnds, run_both_ends};
pub use fault::{EndFault, NetFault};
pub use laws::{calls_are_moves, crashes_are_losses, undelayed_serves};
pub use line_end::LineEnd;
pub use order_notes::{Clocked, NoNotes, NoteSource};
pub use plans::{Planned, StepOptions, StepRun, plan, settling_once};
pub use service::{Delay, serve};
pub use settings::{config_of, currency_of, password_of};
pub use till_end::run_till_end;
pub use zvt_stream::Endpoint;
