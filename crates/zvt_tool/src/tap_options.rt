//! The options of `tap`.
ghost use Rattle.std.specs.Prelude.{◌≡◌, codes, Some};
ghost use Rattle.clap.specs.Words.{found_of, rows_of};
ghost use Rattle.zvt_tool.specs.Chosen.{MayBeChoiceOf};
ghost use Rattle.zvt_tool.specs.Options.{app_for};
ghost use Rattle.zvt_tool.specs.TapOptions.{tap_app};

use crate::choices::Choice;
use crate::given::{flag, number, text};
use crate::help;
use crate::options::{CommandOption, CommandRow};
use clap::ArgMatches;

/// The options of `tap`.
#[derive(Clone, Copy)]
pub struct TapOptions<'a> {
    /// The address to which the till connects: `[HOST:]PORT`.
    pub listen: &'a str,
    /// The address at which the terminal listens: `HOST:PORT`.
    pub to: &'a str,
    pub trace: Option<&'a str>,
    /// Whether the trace has no time marks.
    pub no_times: bool,
    /// Stop forwarding if the trace can't be written.
    pub trace_required: bool,
    /// The number of connections: 1 by default, and 0 for any number.
    pub connections: u16,
    /// Whether lengths are read in any form that holds them.
    pub loose: bool,
    /// Whether a side is read on after a refused message.
    pub reads_on: bool,
}

/// The row of `tap`: its options and help.
pub fn tap_row() -> CommandRow<'static>
    ensures { app_for result ≡ tap_app }
{
    CommandRow {
        name: "tap",
        about: "Forward a live connection while recording, printing and auditing it",
        more: "Let the till connect to the tap instead of the terminal.

Example:
  zvt tap --listen 20008 --to 192.168.1.20:20007 --trace day.trace",
        options: &[
            CommandOption::Needed(
                "listen",
                "ADDRESS",
                "Where the till connects: PORT, or HOST:PORT with the address to listen on (default \
                    127.0.0.1); port 0 picks a free one",
            ),
            CommandOption::Needed("to", "ADDRESS", "Where the terminal listens: HOST:PORT"),
            CommandOption::Value(
                "trace",
                "FILE",
                "Append a trace of the connection to FILE, each chunk before it is forwarded: the raw bytes, \
                    including passwords and card data",
            ),
            CommandOption::Flag("no-times", help::NO_TIMES),
            CommandOption::Flag(
                "trace-required",
                "Exit with 4 if the trace cannot be written, and forward nothing more",
            ),
            CommandOption::Number(
                "connections",
                "N",
                "1",
                "Forward N connections one after another, then exit; 0 for no end",
            ),
            CommandOption::Flag("loose", help::LOOSE),
            CommandOption::Flag("open", help::OPEN_AUDIT),
        ],
    }
}

/// What the words give `tap`.
pub fn read_tap<'a>(inner: &ArgMatches<'a>) -> Option<Choice<'a>>
    ensures { MayBeChoiceOf (Some (codes "tap", rows_of (found_of inner.now))) result }
{
    let listen = text(inner, "listen")?;
    let to = text(inner, "to")?;
    let connections = number(inner, "connections")?;
    Some(Choice::Tap(TapOptions {
        listen,
        to,
        trace: text(inner, "trace"),
        no_times: flag(inner, "no-times"),
        trace_required: flag(inner, "trace-required"),
        connections,
        loose: flag(inner, "loose"),
        reads_on: flag(inner, "open"),
    }))
}
