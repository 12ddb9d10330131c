//! The options of `play`, `check-till` and `check-terminal`.
ghost use Rattle.std.specs.Prelude.{◌≡◌, codes, IfOk, Some};
ghost use Rattle.clap.specs.Words.{Text, first_of, found_of, rows_of};
ghost use Rattle.zvt_tool.specs.Chosen.{MayBeChoiceOf};
ghost use Rattle.zvt_tool.specs.Options.{app_for};
ghost use Rattle.zvt_tool.specs.Given.{GivesNumber};
ghost use Rattle.zvt_tool.specs.PlayOptions.{AreCheckOptionsOf, check_app, play_app};

use crate::choices::Choice;
use crate::given::{flag, number, text, words};
use crate::help;
use crate::options::{CommandOption, CommandRow};
use clap::ArgMatches;
use std::alloc::{AllocError, Global};

/// The options of `play`. The program takes one of `till` and `terminal`, and one of `port` and `listen`.
#[derive(Clone, Copy)]
pub struct PlayOptions<'a> {
    /// The trace whose till side is played.
    pub till: Option<&'a str>,
    /// The trace whose terminal side is played.
    pub terminal: Option<&'a str>,
    /// The port at which the other side listens.
    pub port: Option<u16>,
    /// The port to which the other side connects.
    pub listen: Option<u16>,
    /// The host of either is 127.0.0.1 unless one is given.
    pub host: &'a str,
    /// Whether the other side may send lengths in any form that holds them.
    pub loose: bool,
    /// Whether reading goes on after a message of the other side whose data is invalid.
    pub reads_on: bool,
}

/// The options of `check-till` and `check-terminal`.
#[derive(Drop)]
pub struct CheckOptions<'a> {
    /// The port to which the till connects, or at which the terminal listens.
    pub port: u16,
    /// The host is 127.0.0.1 unless one is given.
    pub host: &'a str,
    /// The file of the report in JUnit's form.
    pub junit: Option<&'a str>,
    /// Whether the other side may send lengths in any form that holds them.
    pub loose: bool,
    /// Whether reading goes on after a message of the other side whose data is invalid.
    pub reads_on: bool,
    /// The situations, in order.
    pub files: Vec<&'a str>,
}

/// The row of `play`: its options and help.
pub fn play_row() -> CommandRow<'static>
    ensures { app_for result ≡ play_app }
{
    CommandRow {
        name: "play",
        about: "Play one side of a trace against a real till or terminal, and compare",
        more: "Give one of --till and --terminal, and one of --port and --listen.
The lines of the side that is played are sent. The lines of the other side are compared with what comes:
  > 0601     A message that begins with these bytes
  >          Any message
  !          Close the connection here
  #~ 1500    Wait for 1500 milliseconds
  #~ silent  Send nothing more
The status is 1 if another message comes.

Example:
  zvt play --terminal payment.trace --listen 20007",
        options: &[
            CommandOption::Value("till", "FILE", "Play the till's side of this trace"),
            CommandOption::Value("terminal", "FILE", "Play the terminal's side of this trace"),
            CommandOption::Port(
                "port",
                "Connect to this TCP port, where the other side listens",
            ),
            CommandOption::Port(
                "listen",
                "Listen on this TCP port, where the other side connects",
            ),
            CommandOption::Host(help::PLAY_HOST),
            CommandOption::Flag("loose", help::PLAY_LOOSE),
            CommandOption::Flag("open", help::OPEN_PLAY),
        ],
    }
}

/// The row of `check-till`: its options and help.
pub fn check_till_row() -> CommandRow<'static>
    ensures { app_for result ≡ check_app (codes "check-till") (codes "listen") }
{
    CommandRow {
        name: "check-till",
        about: "Play terminals in one situation after another, and report which a till passes",
        more: "Each FILE is a trace, played as by 'zvt play'. Its comments say what to do at the till.
The report is in TAP format. The status is 1 if a situation is not passed.

Example:
  zvt check-till --listen 20007 conformance/till/*.trace",
        options: &[
            CommandOption::NeededPort("listen", help::CHECK_PORT),
            CommandOption::Host(help::PLAY_HOST),
            CommandOption::Value("junit", "FILE", help::JUNIT),
            CommandOption::Flag("loose", help::PLAY_LOOSE),
            CommandOption::Flag("open", help::OPEN_PLAY),
            CommandOption::Several("file", "FILE", help::SITUATIONS),
        ],
    }
}

/// The row of `check-terminal`: its options and help.
pub fn check_terminal_row() -> CommandRow<'static>
    ensures { app_for result ≡ check_app (codes "check-terminal") (codes "port") }
{
    CommandRow {
        name: "check-terminal",
        about: "Play tills in one situation after another, and report which a terminal passes",
        more: "Each FILE is a trace, played as by 'zvt play'.
The report is in TAP format. The status is 1 if a situation is not passed.

Example:
  zvt check-terminal --port 20007 conformance/terminal/*.trace",
        options: &[
            CommandOption::NeededPort("port", help::CHECK_PORT),
            CommandOption::Host(help::PLAY_HOST),
            CommandOption::Value("junit", "FILE", help::JUNIT),
            CommandOption::Flag("loose", help::PLAY_LOOSE),
            CommandOption::Flag("open", help::OPEN_PLAY),
            CommandOption::Several("file", "FILE", help::SITUATIONS),
        ],
    }
}

/// What the words give `play`.
pub fn read_play<'a>(inner: &ArgMatches<'a>) -> Option<Choice<'a>>
    ensures { MayBeChoiceOf (Some (codes "play", rows_of (found_of inner.now))) result }
{
    let host = text(inner, "host")?;
    Some(Choice::Play(PlayOptions {
        till: text(inner, "till"),
        terminal: text(inner, "terminal"),
        port: number(inner, "port"),
        listen: number(inner, "listen"),
        host,
        loose: flag(inner, "loose"),
        reads_on: flag(inner, "open"),
    }))
}

/// What the words give `check-till`.
pub fn read_check_till<'a>(
    alloc: Global,
    inner: &ArgMatches<'a>,
) -> Result<Option<Choice<'a>>, AllocError>
    ensures { IfOk result (MayBeChoiceOf (Some (codes "check-till", rows_of (found_of inner.now)))) }
{
    let Some(port) = number(inner, "listen") else {
        return Ok(None);
    };
    let Some(host) = text(inner, "host") else {
        return Ok(None);
    };
    let options = check_options(alloc, inner, port, host)?;
    Ok(Some(Choice::CheckTill(options)))
}

/// What the words give `check-terminal`.
pub fn read_check_terminal<'a>(
    alloc: Global,
    inner: &ArgMatches<'a>,
) -> Result<Option<Choice<'a>>, AllocError>
    ensures { IfOk result (MayBeChoiceOf (Some (codes "check-terminal", rows_of (found_of inner.now)))) }
{
    let Some(port) = number(inner, "port") else {
        return Ok(None);
    };
    let Some(host) = text(inner, "host") else {
        return Ok(None);
    };
    let options = check_options(alloc, inner, port, host)?;
    Ok(Some(Choice::CheckTerminal(options)))
}

/// The situations of a command, and its other options, for this port of this host.
fn check_options<'a>(
    alloc: Global,
    inner: &ArgMatches<'a>,
    port: u16,
    host: &'a str,
) -> Result<CheckOptions<'a>, AllocError>
    ensures { (name : Text) → GivesNumber name (rows_of (found_of inner.now)) 65535 port → first_of (codes "host")
        (rows_of (found_of inner.now)) ≡ Some host.entry.now
        → IfOk result (AreCheckOptionsOf name (rows_of (found_of inner.now))) }
{
    let loose = flag(inner, "loose");
    let reads_on = flag(inner, "open");
    let files = words(alloc, inner, "file")?;
    Ok(CheckOptions {
        port,
        host,
        junit: text(inner, "junit"),
        loose,
        reads_on,
        files,
    })
}
