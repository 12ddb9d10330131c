//! Reports on standard error, one line each, after the program's name.
use std::fmt::Display;
use std::io;
use zvt_trace::Tally;

/// The expected form of a terminal's port.
pub const TERMINAL_PORT: &str = "give the port that the terminal listens on";

/// The expected form of a till's timeout.
pub const SOME_SECONDS: &str = "expected 1 to 65535";

/// The failed action if the file of a trace can't be opened.
pub const NO_TRACE: &str = "cannot open the trace";

/// Reports this text.
pub fn report<T: Display + Drop>(rt: &HostRuntime, what: T) -> io::Result<()> {
    eprintln!(rt; "zvt: {what}")
}

/// Reports this text about a file or an argument.
pub fn report_on<T: Display + Drop>(rt: &HostRuntime, about: &str, what: T) -> io::Result<()> {
    eprintln!(rt; "zvt: '{about}': {what}")
}

/// Reports that an action on a file or an argument failed, and why.
pub fn report_failed<T: Display + Drop>(
    rt: &HostRuntime,
    about: &str,
    what: &str,
    why: T,
) -> io::Result<()> {
    eprintln!(rt; "zvt: '{about}': {what}: {why}")
}

/// Reports an invalid argument and its expected form.
pub fn report_invalid(rt: &HostRuntime, what: &str, word: &str, expected: &str) -> io::Result<()> {
    eprintln!(rt; "zvt: invalid {what} '{word}': {expected}")
}

/// Reports the number of messages in a trace or a line, and the number of bad streams.
pub fn report_tally(rt: &HostRuntime, tally: Tally) -> io::Result<()> {
    let Tally { messages, bad } = tally;
    eprintln!(rt; "zvt: messages: {messages}, streams refused or cut off: {bad}")
}
