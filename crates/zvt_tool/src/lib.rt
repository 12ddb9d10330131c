//! The library of the program `zvt`, without its files, sockets and reports.
//!
//! - The command line: [`choice`] returns a [`Choice`], and [`with_show`] adds the command to a file alone. Each
//!   command has its row, its options and the code that reads them in one module, such as `till_options`.
//! - The results: the exit [`statuses`], and [`ToolFault`].
//! - The output: the commands on a trace ([`on_trace`]), a [`label`] before each line, the [`verdicts`] of
//!   situations, and the differences from test vectors ([`vector_check`]).
//! - The commands on the input of a reader: [`show`], [`join`], [`audit`], [`receipts`] and [`vectors`], and their
//!   loose forms.
//! - The runs of steps that words name: [`run_loop`], [`run_till`] and [`run_terminal`].
#![tactic(auto)]

mod arguments;
mod book_options;
mod choices;
mod commands;
mod fault;
mod given;
mod help;
pub mod label;
pub mod on_trace;
pub mod options;
mod paths;
mod play_options;
mod runs;
mod serve_options;
pub mod statuses;
mod tap_options;
mod terminal_options;
mod till_options;
pub mod trace_command;
mod trace_rows;
mod traces;
pub mod vector_check;
pub mod verdicts;

pub use arguments::choice;
pub use choices::{Choice, ChoiceFault};
pub use fault::ToolFault;
pub use paths::with_show;
pub use play_options::{CheckOptions, PlayOptions};
pub use runs::{run_loop, run_terminal, run_till};
pub use serve_options::ServeOptions;
pub use tap_options::TapOptions;
pub use terminal_options::TerminalOptions;
pub use till_options::TillOptions;
pub use trace_command::TraceCommand;
pub use traces::{
    audit, audit_loose, join, normalise_trace, receipts, receipts_loose, show, show_loose, vectors,
};
pub use zvt_trace::Tally;
