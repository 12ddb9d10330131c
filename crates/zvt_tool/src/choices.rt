//! The choices of a command line.
ghost use Rattle.std.specs.Prelude.{◌≡◌};
ghost use Rattle.zvt_tool.specs.declared.choices.ChoiceFault.TheVariants.{Memory};

use crate::play_options::{CheckOptions, PlayOptions};
use crate::serve_options::ServeOptions;
use crate::tap_options::TapOptions;
use crate::terminal_options::TerminalOptions;
use crate::till_options::TillOptions;
use crate::trace_command::TraceCommand;
use std::alloc::{AllocError, AllocFailed};
use thiserror::Error;

/// A command of the program with its arguments.
///
/// Steps, hosts, codes, settings and files are the arguments unchanged. The code that uses them checks their form.
#[derive(Drop)]
pub enum Choice<'a> {
    /// Also chosen if no command is given.
    Show(TraceCommand<'a>),
    Join(TraceCommand<'a>),
    /// Accepts lengths in any form.
    Normalise(TraceCommand<'a>),
    Audit(TraceCommand<'a>),
    Report(TraceCommand<'a>),
    Receipts(TraceCommand<'a>),
    /// Reads vectors instead of traces from its files.
    Vectors(TraceCommand<'a>),
    /// Shows the books of tills.
    Book {
        /// Their files, at least one.
        files: Vec<&'a str>,
        /// Whether the output is JSON.
        json: bool,
        /// Whether the output is the records of the book, as a trace.
        records: bool,
    },
    Loop {
        trace: Option<&'a str>,
        /// Whether the trace has no time marks.
        no_times: bool,
        book: Option<&'a str>,
        /// Whether a step that does not succeed is a fault.
        check: bool,
        /// Whether the output is JSON.
        json: bool,
        steps: Vec<&'a str>,
    },
    Till(TillOptions<'a>),
    Terminal(TerminalOptions<'a>),
    Tap(TapOptions<'a>),
    Serve(ServeOptions<'a>),
    Play(PlayOptions<'a>),
    CheckTill(CheckOptions<'a>),
    CheckTerminal(CheckOptions<'a>),
}

/// Why a command line names no command.
#[derive(Debug, Drop, Error)]
pub enum ChoiceFault {
    /// An argument is wrong, or help or the version was requested. `print` of the error writes its text to the right
    /// place. `use_stderr` is false only for help and the version.
    #[error(transparent)]
    Words(clap::Error),
    /// An allocation failed while the arguments were parsed.
    #[error("out of memory while reading the arguments")]
    Memory,
}

impl From<AllocError> for ChoiceFault {
    ghost from_gives = { λ _ fault. fault ≡ Memory };

    fn from(_refused: AllocError) -> ChoiceFault {
        ChoiceFault::Memory
    }
}
