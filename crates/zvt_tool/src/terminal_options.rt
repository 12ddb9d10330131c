//! The options of `terminal`.
ghost use Rattle.std.specs.Prelude.{◌≡◌, codes, Some};
ghost use Rattle.clap.specs.Words.{found_of, rows_of};
ghost use Rattle.zvt_tool.specs.Chosen.{MayBeChoiceOf};
ghost use Rattle.zvt_tool.specs.Options.{app_for};
ghost use Rattle.zvt_tool.specs.Given.{IsNumberOf};
ghost use Rattle.zvt_tool.specs.TerminalOptions.{terminal_app};

use crate::choices::Choice;
use crate::given::{flag, number, text};
use crate::help;
use crate::options::{CommandOption, CommandRow};
use clap::ArgMatches;

const LARGEST_TID: u32 = 99_999_999;

// The help of the options.

const PORT: &str = "TCP port to listen on; 0 picks a free one and prints it";

const CONNECTIONS: &str =
    "Serve N tills one after another, then exit; 0 for no end. Other tills wait meanwhile. The ledger \
     is kept between tills.";

const DECLINE: &str = "Decline every payment with this code: two hexadecimal digits, not 00";

const EXTENDED: &str =
    "Also accept status enquiry, diagnosis, initialisation, log-off, repeat receipt, \
    refund, date and time, and language";

const CARD: &str = "Show this card in the status of each transaction: girocard or visa";

const RECEIPT: &str = "How receipts are sent: lines (the default), blocks or none";

const INTERMEDIATE: &str = "Send an intermediate status before the first status of an order";

const DELAY: &str =
    "Decide payments after MS milliseconds; until then, an abort from the till cancels the payment";

const LOOSE: &str = "Accept padded lengths, as some tills send them";

const JSON: &str =
    "Print one JSON object per line on standard output, instead of the reports on standard error";

/// The options of `terminal`.
#[derive(Clone, Copy)]
pub struct TerminalOptions<'a> {
    pub port: u16,
    /// The host, 127.0.0.1 by default.
    pub host: &'a str,
    /// The terminal's number, at most 99,999,999 and 12345678 by default.
    pub tid: u32,
    /// The number of connections: 1 by default, and 0 for any number.
    pub connections: u16,
    pub decline: Option<&'a str>,
    /// Whether orders beyond the profile are accepted too.
    pub extended: bool,
    /// The card whose fields are in statuses.
    pub card: Option<&'a str>,
    /// The form of receipts.
    pub receipt: Option<&'a str>,
    /// Whether intermediate statuses are sent.
    pub intermediate: bool,
    /// How long a payment is held before it is decided, in milliseconds, 0 by default.
    pub delay: u16,
    pub trace: Option<&'a str>,
    /// Whether the trace has no time marks.
    pub no_times: bool,
    /// Whether lengths are accepted in any form.
    pub loose: bool,
    /// Whether the terminal goes on after an invalid message.
    pub reads_on: bool,
    /// Whether the reports are JSON, on standard output.
    pub json: bool,
}

/// Returns the row of `terminal`: its options and help.
pub fn terminal_row() -> CommandRow<'static>
    ensures { app_for result ≡ terminal_app }
{
    CommandRow {
        name: "terminal",
        about: "Simulate a terminal that approves or declines payments",
        more: "Example:
  zvt terminal --port 20007 --decline 6C",
        options: &[
            CommandOption::NeededPort("port", PORT),
            CommandOption::Host("Address to listen on"),
            CommandOption::Tid("Terminal number, at most 99999999"),
            CommandOption::Number("connections", "N", "1", CONNECTIONS),
            CommandOption::Value("decline", "XX", DECLINE),
            CommandOption::Flag("extended", EXTENDED),
            CommandOption::Value("card", "CARD", CARD),
            CommandOption::Value("receipt", "FORM", RECEIPT),
            CommandOption::Flag("intermediate", INTERMEDIATE),
            CommandOption::Number("delay", "MS", "0", DELAY),
            CommandOption::Value("trace", "FILE", help::TRACE),
            CommandOption::Flag("no-times", help::NO_TIMES),
            CommandOption::Flag("loose", LOOSE),
            CommandOption::Flag("open", help::OPEN_TERMINAL),
            CommandOption::Flag("json", JSON),
        ],
    }
}

/// Returns the choice from the arguments of `terminal`.
pub fn read_terminal<'a>(inner: &ArgMatches<'a>) -> Option<Choice<'a>>
    ensures { MayBeChoiceOf (Some (codes "terminal", rows_of (found_of inner.now))) result }
{
    let port = number(inner, "port")?;
    let host = text(inner, "host")?;
    let tid = tid(inner)?;
    let connections = number(inner, "connections")?;
    let delay = number(inner, "delay")?;
    Some(Choice::Terminal(TerminalOptions {
        port,
        host,
        tid,
        connections,
        decline: text(inner, "decline"),
        extended: flag(inner, "extended"),
        card: text(inner, "card"),
        receipt: text(inner, "receipt"),
        intermediate: flag(inner, "intermediate"),
        delay,
        trace: text(inner, "trace"),
        no_times: flag(inner, "no-times"),
        loose: flag(inner, "loose"),
        reads_on: flag(inner, "open"),
        json: flag(inner, "json"),
    }))
}

/// Returns the number of a terminal.
fn tid(inner: &ArgMatches<'_>) -> Option<u32>
    ensures { IsNumberOf (codes "tid") (rows_of (found_of inner.now)) 99999999 result }
{
    let tid = inner.get_one::<u32>("tid")?;
    // `clap` has checked this already; the contract rests on the test here.
    if tid <= LARGEST_TID { Some(tid) } else { None }
}
