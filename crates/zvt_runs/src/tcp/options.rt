//! The options of runs over TCP.
use crate::{Planned, StepOptions};
use std::fs::File;
use std::io::Stderr;
use zvt_stream::LineForm;
use zvt_term::{Extras, Verdict};
use zvt_text::Form;

/// The file for the trace of a run, and how it is written.
#[derive(Clone, Copy)]
pub struct RunTrace<'f> {
    pub file: &'f File,
    /// Whether each line has a time mark.
    pub marks_times: bool,
}

/// The options of a till's run: the terminal to connect to, the steps, how the line is read, traced and shown, and how
/// the steps are reported.
#[derive(Clone, Copy)]
pub struct TillRun<'a, 'f> {
    /// The name or address of the terminal's host.
    pub host: &'a str,
    /// The port on which the terminal listens.
    pub port: u16,
    /// The timeout in seconds, for connecting, for each read and for each write.
    pub seconds: u16,
    /// How the till reads the line.
    pub line: LineForm,
    /// The trace, if one is to be written.
    pub trace: Option<RunTrace<'f>>,
    /// Shows the terminal's messages on standard error, if it is given.
    pub show: Option<Stderr>,
    /// The steps of the till.
    pub plan: &'a [Planned],
    /// How the steps are reported.
    pub options: StepOptions,
}

/// The options of a run of both ends in this process: the till's steps, how the line is traced, and how the steps are
/// reported.
#[derive(Clone, Copy)]
pub struct LoopRun<'a, 'f> {
    /// The trace, if one is to be written.
    pub trace: Option<RunTrace<'f>>,
    /// The steps of the till.
    pub plan: &'a [Planned],
    /// How the steps are reported.
    pub options: StepOptions,
}

/// The options of a simulated terminal: its address, its decisions, what it does beyond the profile, how its lines are
/// read and traced, and the form of its reports.
#[derive(Clone, Copy)]
pub struct TerminalRun<'a, 'f> {
    /// The name or address on which the terminal listens.
    pub host: &'a str,
    /// The port on which the terminal listens. Port 0 chooses a free port.
    pub port: u16,
    /// The terminal's number, at most 99,999,999.
    pub tid: u32,
    /// The terminal's decision on each payment.
    pub verdict: Verdict,
    /// What the terminal does beyond the profile.
    pub extras: Extras,
    /// How the terminal reads its lines.
    pub line: LineForm,
    /// The number of connections to serve, one after another.
    pub connections: u64,
    /// The trace, if one is to be written.
    pub trace: Option<RunTrace<'f>>,
    /// The form of the reports.
    pub form: Form,
}
