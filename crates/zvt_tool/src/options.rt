//! The options of the commands: how a row declares an option, and the meaning of its value.
ghost use Rattle.std.specs.Prelude.{◌≡◌, false};
ghost use Rattle.clap.specs.Words.{rule_of};
ghost use Rattle.zvt_tool.specs.Options.{book_files_rule, connections_by, flag_rule, form_by, host_rule, lengths_by};
ghost use Rattle.zvt_tool.specs.Options.{needed_port_rule, needed_rule, number_rule, option_rule, port_option_rule};
ghost use Rattle.zvt_tool.specs.Options.{repeated_rule, rule_for, several_rule, tid_rule};

use clap::{Arg, ArgAction, value_parser};
use std::alloc::Global;
use zvt_grammar::Lengths;
use zvt_text::{Form, TextOptions};

/// A command: its name, the texts before and after its usage, and its options.
#[derive(Clone, Copy)]
pub struct CommandRow<'a> {
    pub name: &'a str,
    pub about: &'a str,
    pub more: &'a str,
    pub options: &'a [CommandOption<'a>],
}

/// An option of a command, or the words that the command takes. The last text is its help. The name of a value also
/// determines how a shell completes it: `FILE` by files, `HOST` by hosts, and `STEP` by the steps of the command.
#[derive(Clone, Copy)]
pub enum CommandOption<'a> {
    /// Any number of words: the name, the name of a word in the help, and the help.
    Several(&'a str, &'a str, &'a str),
    /// The files of books. At least one is required.
    BookFiles(&'a str),
    /// An option without a value.
    Flag(&'a str, &'a str),
    /// An optional option with a value, and the name of the value in the help.
    Value(&'a str, &'a str, &'a str),
    /// An option with a value that may be given several times, and the name of the value in the help.
    Repeated(&'a str, &'a str, &'a str),
    /// A required option with a value, and the name of the value in the help.
    Needed(&'a str, &'a str, &'a str),
    /// An optional TCP port.
    Port(&'a str, &'a str),
    /// A required TCP port.
    NeededPort(&'a str, &'a str),
    /// The host, which defaults to this machine.
    Host(&'a str),
    /// The number of a terminal.
    Tid(&'a str),
    /// A number of at most 65,535, with its name in the help and its default.
    Number(&'a str, &'a str, &'a str, &'a str),
}

impl<'a> CommandOption<'a> {
    /// Returns the option for `clap`.
    pub fn arg(self, alloc: Global) -> Arg<'a>
        ensures rule { rule_of result ≡ rule_for self.entry }
        ensures local { result.global ≡ false }
    {
        match self {
            CommandOption::Several(name, value, text) => several(alloc, name, value, text),
            CommandOption::BookFiles(text) => book_files(alloc, text),
            CommandOption::Flag(name, text) => flag(alloc, name, text),
            CommandOption::Value(name, value, text) => value_of(alloc, name, value, text),
            CommandOption::Repeated(name, value, text) => repeated(alloc, name, value, text),
            CommandOption::Needed(name, value, text) => needed(alloc, name, value, text),
            CommandOption::Port(name, text) => port(alloc, name, text),
            CommandOption::NeededPort(name, text) => needed_port(alloc, name, text),
            CommandOption::Host(text) => host(alloc, text),
            CommandOption::Tid(text) => tid(alloc, text),
            CommandOption::Number(name, value, default, text) => {
                number(alloc, name, value, default, text)
            }
        }
    }
}

/// Returns any number of words. `value` is the name of a word in the help.
fn several<'a>(alloc: Global, name: &'a str, value: &'a str, text: &'a str) -> Arg<'a>
    ensures rule { rule_of result ≡ several_rule name.entry.now }
    ensures local { result.global ≡ false }
{
    Arg::new(alloc, name)
        .action(ArgAction::Append)
        .value_name(value)
        .help(text)
}

fn book_files<'a>(alloc: Global, text: &'a str) -> Arg<'a>
    ensures rule { rule_of result ≡ book_files_rule }
    ensures local { result.global ≡ false }
{
    several(alloc, "file", "FILE", text).required(true)
}

/// Returns an optional TCP port.
fn port<'a>(alloc: Global, name: &'a str, text: &'a str) -> Arg<'a>
    ensures rule { rule_of result ≡ port_option_rule name.entry.now }
    ensures local { result.global ≡ false }
{
    Arg::new(alloc, name)
        .long(name)
        .value_parser(value_parser!(u16))
        .value_name("PORT")
        .help(text)
}

/// Returns a required TCP port.
fn needed_port<'a>(alloc: Global, name: &'a str, text: &'a str) -> Arg<'a>
    ensures rule { rule_of result ≡ needed_port_rule name.entry.now }
    ensures local { result.global ≡ false }
{
    Arg::new(alloc, name)
        .long(name)
        .value_parser(value_parser!(u16))
        .required(true)
        .value_name("PORT")
        .help(text)
}

fn host<'a>(alloc: Global, text: &'a str) -> Arg<'a>
    ensures rule { rule_of result ≡ host_rule }
    ensures local { result.global ≡ false }
{
    Arg::new(alloc, "host")
        .long("host")
        .default_value("127.0.0.1")
        .value_name("HOST")
        .help(text)
}

fn tid<'a>(alloc: Global, text: &'a str) -> Arg<'a>
    ensures rule { rule_of result ≡ tid_rule }
    ensures local { result.global ≡ false }
{
    Arg::new(alloc, "tid")
        .long("tid")
        .value_parser(value_parser!(u32).range(0..=99_999_999))
        .default_value("12345678")
        .value_name("TID")
        .help(text)
}

/// Returns a number of at most 65,535, which defaults to `default`.
fn number<'a>(
    alloc: Global,
    name: &'a str,
    value: &'a str,
    default: &'a str,
    text: &'a str,
) -> Arg<'a>
    ensures rule { rule_of result ≡ number_rule name.entry.now default.entry.now }
    ensures local { result.global ≡ false }
{
    Arg::new(alloc, name)
        .long(name)
        .value_parser(value_parser!(u16))
        .default_value(default)
        .value_name(value)
        .help(text)
}

/// Returns a required option with one value.
fn needed<'a>(alloc: Global, name: &'a str, value: &'a str, text: &'a str) -> Arg<'a>
    ensures rule { rule_of result ≡ needed_rule name.entry.now }
    ensures local { result.global ≡ false }
{
    Arg::new(alloc, name)
        .long(name)
        .required(true)
        .value_name(value)
        .help(text)
}

/// Returns an option with one value that may be given several times.
fn repeated<'a>(alloc: Global, name: &'a str, value: &'a str, text: &'a str) -> Arg<'a>
    ensures rule { rule_of result ≡ repeated_rule name.entry.now }
    ensures local { result.global ≡ false }
{
    Arg::new(alloc, name)
        .long(name)
        .action(ArgAction::Append)
        .value_name(value)
        .help(text)
}

/// Returns an option without a value.
fn flag<'a>(alloc: Global, name: &'a str, text: &'a str) -> Arg<'a>
    ensures rule { rule_of result ≡ flag_rule name.entry.now }
    ensures local { result.global ≡ false }
{
    Arg::new(alloc, name)
        .long(name)
        .action(ArgAction::SetTrue)
        .help(text)
}

/// Returns an optional option with one value.
fn value_of<'a>(alloc: Global, name: &'a str, value: &'a str, text: &'a str) -> Arg<'a>
    ensures rule { rule_of result ≡ option_rule name.entry.now }
    ensures local { result.global ≡ false }
{
    Arg::new(alloc, name)
        .long(name)
        .value_name(value)
        .help(text)
}

/// Returns the lengths that a command accepts: padded ones only if it is loose.
pub fn lengths_by(loose: bool) -> Lengths
    ensures { result ≡ lengths_by loose }
{
    if loose {
        Lengths::Padded
    } else {
        Lengths::Shortest
    }
}

/// Returns the output form: JSON or text.
pub fn form_by(json: bool) -> Form
    ensures { result ≡ form_by json }
{
    if json { Form::Json } else { Form::Text }
}

/// Returns the number of connections to accept. 0 means any number, and becomes the largest `u64`.
pub fn connections_by(number: u16) -> u64
    ensures { result ≡ connections_by number }
{
    if number == 0 {
        u64::MAX
    } else {
        u64::from(number)
    }
}
