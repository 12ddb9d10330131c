//! Runs of a till, of a simulated terminal, and of both ends of a line, over TCP.
//!
//! [`run_till`], [`run_terminal`] and [`run_loop`] open sockets with [`connect`] and [`listen`], and run the ends of a
//! line over them. The till may be alone or have a book.
mod connection;
mod delay;
mod ends;
mod laws;
mod options;
mod reports;
mod rows;
mod runs;
mod shown;
mod silence;
mod terminal;
mod trace_file;

pub use connection::{Door, PATIENCE_SECONDS, SILENCE_SECONDS, connect, listen};
pub use laws::book_runs_outlive;
pub use options::{LoopRun, RunTrace, TerminalRun, TillRun};
pub use runs::{run_loop, run_till};
pub use terminal::run_terminal;
