//! The options of `serve`.
ghost use Rattle.std.specs.Prelude.{◌≡◌, codes, map, IfOk, Some};
ghost use Rattle.clap.specs.Words.{found_of, rows_of};
ghost use Rattle.zvt_tool.specs.Chosen.{MayBeChoiceOf};
ghost use Rattle.zvt_tool.specs.Given.{words_of};
ghost use Rattle.zvt_tool.specs.Options.{app_for};
ghost use Rattle.zvt_tool.specs.ServeOptions.{serve_app};

use crate::choices::Choice;
use crate::given::{flag, number, text, words};
use crate::help;
use crate::options::{CommandOption, CommandRow};
use clap::ArgMatches;
use std::alloc::{AllocError, Global};

/// The options of `serve`.
#[derive(Drop)]
pub struct ServeOptions<'a> {
    /// The port of the service. 0 picks a free one.
    pub port: u16,
    /// The host of the service, 127.0.0.1 by default.
    pub host: &'a str,
    /// The address at which the terminal listens: `HOST:PORT`.
    pub terminal: &'a str,
    pub book: &'a str,
    /// Books whose keys are answered, and not given again.
    pub earlier: Vec<&'a str>,
    pub token_file: &'a str,
    /// A host name by which clients reach the service, beside its own.
    pub allow_host: Option<&'a str>,
    pub password: Option<&'a str>,
    pub config: Option<&'a str>,
    pub currency: Option<&'a str>,
    /// The timeout in seconds. The parser accepts 0; the program rejects it.
    pub timeout: u16,
    /// The most clients at a time. The parser accepts 0; the program rejects it.
    pub clients: u16,
    pub trace: Option<&'a str>,
    /// Whether the trace has no time marks.
    pub no_times: bool,
    /// Whether the till does not ask by itself.
    pub no_ask: bool,
    /// Whether lengths are accepted in any form.
    pub loose: bool,
    /// Whether the till goes on after an invalid message.
    pub reads_on: bool,
}

/// The options of `serve`, in the order of its help.
const OPTIONS: [CommandOption<'static>; 17] = [
    CommandOption::NeededPort("port", "TCP port of the service; 0 picks a free one"),
    CommandOption::Host("Host name or address of the service"),
    CommandOption::Needed(
        "terminal",
        "ADDRESS",
        "Where the terminal listens: HOST:PORT",
    ),
    CommandOption::Needed(
        "book",
        "FILE",
        "Keep the till's book in FILE, which is created if it does not exist",
    ),
    CommandOption::Repeated(
        "earlier",
        "FILE",
        "Also answer requests for keys of the earlier book FILE, and send no order for them; may be given several times",
    ),
    CommandOption::Needed(
        "token-file",
        "FILE",
        "Read the clients' token from FILE, which is created with a new token if it does not exist",
    ),
    CommandOption::Value(
        "allow-host",
        "NAME",
        "Accept requests for the host NAME too, for instance from a reverse proxy",
    ),
    CommandOption::Value(
        "password",
        "NNNNNN",
        "Password of the terminal, six digits (default 000000)",
    ),
    CommandOption::Value(
        "config",
        "XX",
        "Configuration byte of the registration, two hexadecimal digits (default BE)",
    ),
    CommandOption::Value(
        "currency",
        "NNNN",
        "ISO 4217 currency number, four digits (default 0978, the euro)",
    ),
    CommandOption::Number(
        "timeout",
        "SECONDS",
        "180",
        "Give a connection up after SECONDS without a message of the terminal, 1 to 65535",
    ),
    CommandOption::Number(
        "clients",
        "N",
        "64",
        "Serve at most N clients at a time, 1 to 1000",
    ),
    CommandOption::Value("trace", "FILE", help::TRACE),
    CommandOption::Flag("no-times", help::NO_TIMES),
    CommandOption::Flag(
        "no-ask",
        "Do not ask the terminal for its last transaction after registering: some terminals print a copy of the receipt \
            when asked",
    ),
    CommandOption::Flag(
        "loose",
        "Accept padded lengths. Use this only for terminals known to send them.",
    ),
    CommandOption::Flag("open", help::OPEN_TILL),
];

/// The row of `serve`: its options and help.
pub fn serve_row() -> CommandRow<'static>
    ensures { app_for result ≡ serve_app }
{
    CommandRow {
        name: "serve",
        about: "Serve a till over HTTP: each order has a key, and is sent at most once",
        more: "Any program that can send an HTTP request can pay. It names each order by a key of its own choice, and may
repeat a request after a timeout or a crash: the terminal gets the order at most once, and the answer stays.

Example:
  zvt serve --port 8080 --terminal 192.168.1.20:20007 --book day.book --token-file till.token
  curl -X POST http://127.0.0.1:8080/payments -H \"Authorization: Bearer $(cat till.token)\" \\
    -H 'Idempotency-Key: sale-2026-000017' -d '{\"amount\":1234}'",
        options: &OPTIONS,
    }
}

/// Returns the choice from the arguments of `serve`.
pub fn read_serve<'a>(
    alloc: Global,
    inner: &ArgMatches<'a>,
) -> Result<Option<Choice<'a>>, AllocError>
    ensures { IfOk result (MayBeChoiceOf (Some (codes "serve", rows_of (found_of inner.now)))) }
{
    let earlier = words(alloc, inner, "earlier")?;
    Ok(serve_after(inner, earlier))
}

/// Returns the choice from the arguments of `serve`, of which the earlier books were read.
fn serve_after<'a>(inner: &ArgMatches<'a>, earlier: Vec<&'a str>) -> Option<Choice<'a>>
    requires { map (λ file. file.now) earlier.items ≡ words_of (codes "earlier") (rows_of (found_of inner.now)) }
    ensures { MayBeChoiceOf (Some (codes "serve", rows_of (found_of inner.now))) result }
{
    let port = number(inner, "port")?;
    let host = text(inner, "host")?;
    let terminal = text(inner, "terminal")?;
    let book = text(inner, "book")?;
    let token_file = text(inner, "token-file")?;
    let timeout = number(inner, "timeout")?;
    let clients = number(inner, "clients")?;
    Some(Choice::Serve(ServeOptions {
        port,
        host,
        terminal,
        book,
        earlier,
        token_file,
        allow_host: text(inner, "allow-host"),
        password: text(inner, "password"),
        config: text(inner, "config"),
        currency: text(inner, "currency"),
        timeout,
        clients,
        trace: text(inner, "trace"),
        no_times: flag(inner, "no-times"),
        no_ask: flag(inner, "no-ask"),
        loose: flag(inner, "loose"),
        reads_on: flag(inner, "open"),
    }))
}
