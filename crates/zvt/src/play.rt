//! One side of a trace, played against a real other side.

use crate::connections::{
    CONNECTION_SECONDS, FIRST_SECONDS, Place, limit_reads, next_connection, next_within, place_at,
    report_address,
};
use crate::exit::Exit;
use crate::finish::{finish_run, finish_trace};
use crate::inputs::opened;
use crate::reports::{NO_TRACE, report, report_failed, report_on};
use std::alloc::AllocError;
use std::io::{self, Write};
use std::net::TcpStream;
use zvt_io::Over;
use zvt_play::{
    Action, Difference, Names, Role, ScriptFault, ScriptStep, Unplayed, difference_text, listen_on,
    script, stay_silent, surplus_text,
};
use zvt_runs::tcp::SILENCE_SECONDS;
use zvt_runs::{EndFault, NetFault};
use zvt_stream::{Endpoint, LineForm, Stream};
use zvt_text::Text;
use zvt_tool::PlayOptions;
use zvt_tool::options::lengths_by;
use zvt_tool::statuses::{BAD, DEVICE, DONE, MEMORY, TRACE, WORDS};
use zvt_trace::{Direction, read_trace};

/// How the play of a script ended.
#[derive(Drop)]
pub enum Played {
    /// It was played to its end.
    Whole,
    /// What came differs: what was awaited, and what came.
    Differs(Text),
    /// The connection was lost, or another one was not made: what was to be done on it.
    Broken(Text),
    /// There was no first connection, or no memory. That is reported, and this is the exit status.
    Ended(u8),
}

/// An end of a connection.
type LineEnd<'a> = Endpoint<Over<&'a TcpStream>, Over<&'a TcpStream>>;

/// Plays one side of a trace and returns the exit status. Reads the whole trace before it opens a connection.
pub fn play(rt: &HostRuntime, options: &PlayOptions<'_>) -> Result<u8, Exit> {
    let (own, path) = match (options.till, options.terminal) {
        (Some(path), None) => (Direction::FromTill, path),
        (None, Some(path)) => (Direction::FromTerminal, path),
        _ => {
            report(
                rt,
                "give the side to play and its trace: --till FILE or --terminal FILE",
            )?;
            return Ok(WORDS);
        }
    };
    if let Some(wrong) = wrong_place(options) {
        report(rt, wrong)?;
        return Ok(WORDS);
    }
    let role = Role {
        own,
        form: LineForm {
            lengths: lengths_by(options.loose),
            passes: options.reads_on,
        },
    };
    let text = read_text(rt, path)?;
    let steps = script_of(rt, path, role, text.as_slice())?;
    let mut place = match place_at(rt, options.port, options.listen, options.host) {
        Ok(place) => place,
        Err(why) => return Ok(finish_run(rt, false, Err(EndFault::Net(why)))?),
    };
    report_address(rt, &place)?;
    let played = play_script(rt, &mut place, role, steps.as_slice(), 0)?;
    Ok(finish_play(rt, played)?)
}

/// What is wrong with where the connections are to come from, if anything is.
fn wrong_place(options: &PlayOptions<'_>) -> Option<&'static str> {
    if options.port.is_some() == options.listen.is_some() {
        return Some("give --port N to connect to the other side, or --listen N to await it");
    }
    match options.port {
        Some(0) => Some("invalid port '0': give the port that the other side listens at"),
        _ => None,
    }
}

/// Writes what differs, and answers the exit status.
fn finish_play(rt: &HostRuntime, played: Played) -> io::Result<u8> {
    match played {
        Played::Whole => Ok(DONE),
        Played::Differs(text) => {
            io::writer(rt).write_all(text.bytes())?;
            Ok(BAD)
        }
        Played::Broken(text) => {
            let mut errors = rt.stderr();
            errors.write_all(b"zvt: ")?;
            errors.write_all(text.bytes())?;
            Ok(DEVICE)
        }
        Played::Ended(status) => Ok(status),
    }
}

/// The text of the trace in this file. A file that can't be read is reported.
pub fn read_text(rt: &HostRuntime, path: &str) -> Result<Vec<u8>, Exit> {
    let file = match opened(rt, path) {
        Ok(file) => file,
        Err(error) => {
            report_failed(rt, path, NO_TRACE, &error)?;
            return Err(Exit::Status(DEVICE));
        }
    };
    match read_trace(rt.alloc(), &mut Over::new(file)) {
        Ok(text) => Ok(text),
        Err(fault) => Err(Exit::Status(finish_trace(rt, Some(path), false, false, Err(fault))?)),
    }
}

/// The script of the trace with this text. A line that can't be played is reported.
pub fn script_of(
    rt: &HostRuntime,
    path: &str,
    role: Role,
    text: &[u8],
) -> Result<Vec<ScriptStep>, Exit> {
    match script(rt.alloc(), role, text) {
        Ok(steps) => Ok(steps),
        Err(fault) => {
            report_on(rt, path, &fault)?;
            Err(Exit::Status(match fault {
                ScriptFault::Line { .. } => TRACE,
                ScriptFault::Memory => MEMORY,
            }))
        }
    }
}

/// Plays the steps, over one connection after another. Then it listens for the given number of milliseconds, or for as
/// long as the last step demands.
pub fn play_script(
    rt: &HostRuntime,
    place: &mut Place<'_>,
    role: Role,
    steps: &[ScriptStep],
    listened: u32,
) -> io::Result<Played> {
    let mut rest = on_line(steps);
    let mut names = Names::new();
    let mut is_first = true;
    let milliseconds = listening(steps).unwrap_or(listened);
    for _ in 0..steps.len() {
        if rest.is_empty() {
            break;
        }
        let seconds = match (is_first, listened) {
            (true, 0) => None,
            (true, _) => Some(FIRST_SECONDS),
            (false, _) => Some(CONNECTION_SECONDS),
        };
        let connection = match next_connection(rt, place, seconds) {
            Ok(connection) => connection,
            Err(why) if is_first && why != NetFault::Silent => {
                let status = finish_run(rt, false, Err(EndFault::Net(why)))?;
                return Ok(Played::Ended(status));
            }
            Err(why) => return not_connected(rt, rest, why),
        };
        is_first = false;
        match play_line(rt, &connection, role, &mut names, rest, milliseconds)? {
            Ok(after) => rest = on_line(after),
            Err(ended) => return Ok(ended),
        }
    }
    listen_for_another(rt, place, milliseconds)
}

/// For how many milliseconds the steps say to listen on, if they do.
fn listening(steps: &[ScriptStep]) -> Option<u32> {
    match steps.last()?.action {
        Action::Listen(milliseconds) => Some(milliseconds),
        _ => None,
    }
}

/// Listens for a connection that the trace does not have. A connection that sends no byte does not count.
fn listen_for_another(
    rt: &HostRuntime,
    place: &mut Place<'_>,
    milliseconds: u32,
) -> io::Result<Played> {
    let Place::From(door) = place else {
        return Ok(Played::Whole);
    };
    let Ok(connection) = next_within(rt, door, milliseconds) else {
        return Ok(Played::Whole);
    };
    limit_reads(&connection, milliseconds);
    match listen_on(&mut Over::new(&connection), false) {
        Err(Difference::Surplus { count }) => differing(rt, surplus_text(rt.alloc(), None, count)),
        _ => Ok(Played::Whole),
    }
}

/// How a play ended where the first of these steps has no connection.
fn not_connected(rt: &HostRuntime, steps: &[ScriptStep], why: NetFault) -> io::Result<Played> {
    let line = steps.first().map_or(0, |step| step.line);
    let mut text = Text::new(rt.alloc());
    text.word(b"line ")?;
    text.number(line)?;
    text.word(match why {
        NetFault::Silent => b" has no connection: the other side made none in time\n",
        _ => b" has no connection: look whether the other side still runs\n".as_slice(),
    })?;
    Ok(Played::Broken(text))
}

/// The steps from the first that wants a connection on.
fn on_line(steps: &[ScriptStep]) -> &[ScriptStep] {
    for (at, step) in steps.iter().enumerate() {
        match step.action {
            Action::Break | Action::Wait(_) | Action::Listen(_) => {}
            _ => return &steps[at..],
        }
    }
    &[]
}

/// Plays the steps of one connection, and answers those after it, or how the play ended.
fn play_line<'s>(
    rt: &HostRuntime,
    connection: &TcpStream,
    role: Role,
    names: &mut Names,
    steps: &'s [ScriptStep],
    listened: u32,
) -> io::Result<Result<&'s [ScriptStep], Played>> {
    let Ok(stream) = Stream::reserved_reading(rt.alloc(), role.form) else {
        return Ok(Err(Played::Ended(without_memory(rt)?)));
    };
    let mut end = Endpoint {
        reader: Over::new(connection),
        writer: Over::new(connection),
        stream,
    };
    match zvt_play::play(rt, &mut end, names, steps) {
        Ok(count) => {
            let (played, after) = steps.split_at(count.min(steps.len()));
            end_line(rt, connection, &mut end, played, after, listened)
        }
        Err(unplayed) => Ok(Err(differ(rt, &end, role, names, steps, unplayed)?)),
    }
}

/// Ends a connection after the steps that were played, and returns the steps that are left.
///
/// Before a break, bytes after an own line may be the answer to it, and are no difference. After the last line they are
/// a difference, except for an acknowledgement.
fn end_line<'s>(
    rt: &HostRuntime,
    connection: &TcpStream,
    end: &mut LineEnd<'_>,
    played: &[ScriptStep],
    after: &'s [ScriptStep],
    listened: u32,
) -> io::Result<Result<&'s [ScriptStep], Played>> {
    if is_silence(after) {
        limit_reads(connection, u32::from(SILENCE_SECONDS) * 1_000);
        stay_silent(&mut end.reader);
        return Ok(Ok(after_break(after)));
    }
    let is_broken = matches!(
        after,
        [
            ScriptStep {
                action: Action::Break,
                ..
            },
            ..
        ]
    );
    let milliseconds = if is_broken { 0 } else { listened };
    if milliseconds == 0 && ends_with_own_line(played) {
        return Ok(Ok(after_break(after)));
    }
    limit_reads(connection, milliseconds);
    let is_owed = is_acknowledged(played);
    match listen_on(&mut end.reader, is_owed) {
        Err(Difference::Surplus { count }) => {
            let text = surplus_text(rt.alloc(), after.first(), count);
            Ok(Err(differing(rt, text)?))
        }
        _ => Ok(Ok(after_break(after))),
    }
}

/// Whether the last of these steps sent bytes.
fn ends_with_own_line(played: &[ScriptStep]) -> bool {
    match played.last() {
        Some(step) => matches!(step.action, Action::Send(_)),
        None => false,
    }
}

/// Whether the other side owes an acknowledgement: the last of these steps sent a message that is not one itself.
fn is_acknowledged(played: &[ScriptStep]) -> bool {
    match played.last() {
        Some(
            ScriptStep {
                action: Action::Send(bytes),
                ..
            },
        ) => !matches!(bytes.as_slice(), [0x80 | 0x84, ..]),
        _ => false,
    }
}

/// Whether the first step is silence.
fn is_silence(steps: &[ScriptStep]) -> bool {
    matches!(
        steps,
        [
            ScriptStep {
                action: Action::Silence,
                ..
            },
            ..
        ]
    )
}

/// The steps after the first that breaks the connection.
fn after_break(steps: &[ScriptStep]) -> &[ScriptStep] {
    for (at, step) in steps.iter().enumerate() {
        if matches!(step.action, Action::Break) {
            return &steps[at + 1..];
        }
    }
    &[]
}

/// How a play ended with a step that could not be played.
fn differ(
    rt: &HostRuntime,
    end: &LineEnd<'_>,
    role: Role,
    names: &Names,
    steps: &[ScriptStep],
    unplayed: Unplayed,
) -> io::Result<Played> {
    let step = steps.get(unplayed.step);
    if unplayed.why == Difference::Write {
        let mut text = Text::new(rt.alloc());
        text.word(b"line ")?;
        text.number(step.map_or(0, |step| step.line))?;
        text.word(
            b" of the trace can't be sent: the other side closed the connection, or it failed\n",
        )?;
        return Ok(Played::Broken(text));
    }
    let text = difference_text(
        rt.alloc(),
        role,
        step,
        names,
        unplayed.why,
        end.stream.lent_bytes(),
    );
    differing(rt, text)
}

/// How a play ended with this text of a difference.
fn differing(rt: &HostRuntime, text: Result<Text, AllocError>) -> io::Result<Played> {
    match text {
        Ok(text) => Ok(Played::Differs(text)),
        Err(_) => Ok(Played::Ended(without_memory(rt)?)),
    }
}

/// Reports that memory is refused, and answers the exit status.
fn without_memory(rt: &HostRuntime) -> io::Result<u8> {
    report(rt, &ScriptFault::Memory)?;
    Ok(MEMORY)
}
