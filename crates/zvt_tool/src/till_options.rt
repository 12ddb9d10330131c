//! The options of `till`.
ghost use Rattle.std.specs.Prelude.{◌≡◌, codes, IfOk, Some};
ghost use Rattle.clap.specs.Words.{found_of, rows_of};
ghost use Rattle.zvt_tool.specs.Chosen.{MayBeChoiceOf};
ghost use Rattle.zvt_tool.specs.Options.{app_for};
ghost use Rattle.zvt_tool.specs.TillOptions.{till_app};

use crate::choices::Choice;
use crate::given::{flag, number, text, words};
use crate::help;
use crate::options::{CommandOption, CommandRow};
use clap::ArgMatches;
use std::alloc::{AllocError, Global};

/// The options and the steps of `till`.
#[derive(Drop)]
pub struct TillOptions<'a> {
    pub port: u16,
    /// The host, 127.0.0.1 by default.
    pub host: &'a str,
    pub password: Option<&'a str>,
    pub config: Option<&'a str>,
    pub currency: Option<&'a str>,
    /// The timeout in seconds. The parser accepts 0; the program rejects it.
    pub timeout: u16,
    pub trace: Option<&'a str>,
    /// Whether the trace has no time marks.
    pub no_times: bool,
    pub book: Option<&'a str>,
    /// Whether a till with a book does not ask by itself.
    pub no_ask: bool,
    /// Whether a step that does not succeed is a fault.
    pub check: bool,
    /// Whether the messages of the terminal are shown.
    pub show: bool,
    /// Whether an end of day without a result code is closed by its completion.
    pub close_by_completion: bool,
    /// Whether a receipt number confirms a reversal whose status names no payment.
    pub reversal_by_receipt: bool,
    /// Whether lengths are accepted in any form.
    pub loose: bool,
    /// Whether the till goes on after an invalid message.
    pub reads_on: bool,
    /// Whether the output is JSON.
    pub json: bool,
    pub steps: Vec<&'a str>,
}

/// The options of `till`, in the order of its help.
const OPTIONS: [CommandOption<'static>; 18] = [
    CommandOption::NeededPort("port", "TCP port of the terminal"),
    CommandOption::Host("Host name or address of the terminal"),
    CommandOption::Value(
        "password",
        "NNNNNN",
        "Password of the terminal, six digits (default 000000)",
    ),
    CommandOption::Value(
        "config",
        "XX",
        "Configuration byte of the registration, two hexadecimal digits (default BE)",
    ),
    CommandOption::Value(
        "currency",
        "NNNN",
        "ISO 4217 currency number, four digits (default 0978, the euro)",
    ),
    CommandOption::Number(
        "timeout",
        "SECONDS",
        "180",
        "Give up after SECONDS without a message of the terminal, 1 to 65535; connecting takes at most 60",
    ),
    CommandOption::Value("trace", "FILE", help::TRACE),
    CommandOption::Flag("no-times", help::NO_TIMES),
    CommandOption::Value("book", "FILE", help::KEEP_BOOK),
    CommandOption::Flag("no-ask", help::NO_ASK),
    CommandOption::Flag("check", help::CHECK_STEPS),
    CommandOption::Flag(
        "show",
        "Print each message from the terminal on standard error as soon as it has arrived",
    ),
    CommandOption::Flag(
        "close-by-completion",
        "Count a completed end of day as closed even if its status names no result code",
    ),
    CommandOption::Flag(
        "reversal-by-receipt",
        "Let another receipt number confirm a reversal whose status names no payment; the book names this rule",
    ),
    CommandOption::Flag(
        "loose",
        "Accept padded lengths. Use this only for terminals known to send them.",
    ),
    CommandOption::Flag("open", help::OPEN_TILL),
    CommandOption::Flag("json", help::JSON),
    CommandOption::Several(
        "step",
        "STEP",
        "register, pay:N, reverse:N, close or ask (see zvt --help)",
    ),
];

/// Returns the row of `till`: its options and help.
pub fn till_row() -> CommandRow<'static>
    ensures { app_for result ≡ till_app }
{
    CommandRow {
        name: "till",
        about: "Act as a till: connect to a terminal and run steps",
        more: "Every connection starts unregistered, also with --book: begin the steps with 'register'.
Without steps, the till registers and closes the day.
A payment is 'unclear' if the connection broke, or if the terminal's answers do not add up. It may have been charged.
The step 'ask' asks the terminal for its last transaction, which may settle it. With --book the till asks by itself
once per connection, after it has registered. If an order stays unclear, check the terminal's journal before you charge
the customer again.

Example:
  zvt till --port 20007 --book day.book --check register pay:1234 close",
        options: &OPTIONS,
    }
}

/// Returns the choice from the arguments of `till`.
pub fn read_till<'a>(
    alloc: Global,
    inner: &ArgMatches<'a>,
) -> Result<Option<Choice<'a>>, AllocError>
    ensures { IfOk result (MayBeChoiceOf (Some (codes "till", rows_of (found_of inner.now)))) }
{
    let Some(port) = number(inner, "port") else {
        return Ok(None);
    };
    let Some(host) = text(inner, "host") else {
        return Ok(None);
    };
    let Some(timeout) = number(inner, "timeout") else {
        return Ok(None);
    };
    let steps = words(alloc, inner, "step")?;
    Ok(Some(Choice::Till(TillOptions {
        port,
        host,
        password: text(inner, "password"),
        config: text(inner, "config"),
        currency: text(inner, "currency"),
        timeout,
        trace: text(inner, "trace"),
        no_times: flag(inner, "no-times"),
        book: text(inner, "book"),
        no_ask: flag(inner, "no-ask"),
        check: flag(inner, "check"),
        show: flag(inner, "show"),
        close_by_completion: flag(inner, "close-by-completion"),
        reversal_by_receipt: flag(inner, "reversal-by-receipt"),
        loose: flag(inner, "loose"),
        reads_on: flag(inner, "open"),
        json: flag(inner, "json"),
        steps,
    })))
}
