//! Situations that are played one after another against a till or a terminal, and the report of them.

use crate::connections::{Place, place_at, report_address};
use crate::exit::Exit;
use crate::finish::finish_run;
use crate::play::{Played, play_script, read_text, script_of};
use crate::reports::{TERMINAL_PORT, report, report_failed, report_invalid};
use std::alloc::{AllocError, Global};
use std::fs;
use std::io::{self, Write};
use zvt_play::{Role, ScriptStep};
use zvt_runs::{EndFault, NetFault};
use zvt_stream::LineForm;
use zvt_text::Text;
use zvt_tool::CheckOptions;
use zvt_tool::label::Label;
use zvt_tool::options::lengths_by;
use zvt_tool::statuses::{BAD, DEVICE, DONE, WORDS};
use zvt_tool::verdicts::{add_case, add_error, add_plan, add_suite, add_verdict};
use zvt_trace::Direction;

/// Why a situation has no verdict after a play that ended all.
const NOT_PLAYED: &[u8] = b"not played: there was no connection, or no memory\n";

/// A situation: its name, the comments at its start, and its steps.
#[derive(Drop)]
struct Situation<'a> {
    name: &'a str,
    head: Text,
    steps: Vec<ScriptStep>,
}

/// The verdicts so far: the cases of the report, and how many situations differ, or broke off.
#[derive(Drop)]
struct Verdicts {
    cases: Text,
    failed: usize,
    broken: usize,
}

/// Milliseconds for which a situation listens after its last line, unless it names another number.
const LISTENED: u32 = 500;

/// Plays the terminal of each situation against a till and returns the exit status.
pub fn till(rt: &HostRuntime, options: &CheckOptions<'_>) -> Result<u8, Exit> {
    let role = role_of(Direction::FromTerminal, options);
    let situations = read_all(rt, role, options)?;
    let place = place_at(rt, None, Some(options.port), options.host);
    check(
        rt,
        "zvt check-till",
        role,
        place,
        situations.as_slice(),
        options,
    )
}

/// Plays the till of each situation against a terminal and returns the exit status.
pub fn terminal(rt: &HostRuntime, options: &CheckOptions<'_>) -> Result<u8, Exit> {
    if options.port == 0 {
        report_invalid(rt, "port", "0", TERMINAL_PORT)?;
        return Ok(WORDS);
    }
    let role = role_of(Direction::FromTill, options);
    let situations = read_all(rt, role, options)?;
    let place = place_at(rt, Some(options.port), None, options.host);
    check(
        rt,
        "zvt check-terminal",
        role,
        place,
        situations.as_slice(),
        options,
    )
}

/// How the situations are played: this side of them, and the other one read as the options ask for.
fn role_of(own: Direction, options: &CheckOptions<'_>) -> Role {
    Role {
        own,
        form: LineForm {
            lengths: lengths_by(options.loose),
            passes: options.reads_on,
        },
    }
}

/// Reads all situations. None, and one that can't be played, are reported.
fn read_all<'a>(
    rt: &HostRuntime,
    role: Role,
    options: &CheckOptions<'a>,
) -> Result<Vec<Situation<'a>>, Exit> {
    if options.files.is_empty() {
        report(
            rt,
            "name the situations to play, e.g. conformance/till/*.trace",
        )?;
        return Err(Exit::Status(WORDS));
    }
    let mut situations = Vec::new(rt.alloc());
    for path in options.files.as_slice() {
        let situation = read_situation(rt, role, path)?;
        situations.push(situation)?;
    }
    Ok(situations)
}

/// Reads the situation in this file.
fn read_situation<'a>(rt: &HostRuntime, role: Role, path: &'a str) -> Result<Situation<'a>, Exit> {
    let text = read_text(rt, path)?;
    let steps = script_of(rt, path, role, text.as_slice())?;
    Ok(Situation {
        name: name_of(path),
        head: head_of(rt.alloc(), text.as_slice())?,
        steps,
    })
}

/// The name of a situation: its file name without folder and extension.
fn name_of(path: &str) -> &str {
    let file = match path.rsplit_once('/') {
        Some((_, file)) => file,
        None => path,
    };
    file.strip_suffix(".trace").unwrap_or(file)
}

/// The comments at the head of a trace.
fn head_of(alloc: Global, trace: &[u8]) -> Result<Text, AllocError> {
    let mut head = Text::new(alloc);
    for line in trace.split(|byte| *byte == b'\n') {
        if !line.starts_with(b"#") {
            break;
        }
        head.word(line)?;
        head.push(b'\n')?;
    }
    Ok(head)
}

/// Plays the situations there, reports them, and answers the exit status.
fn check(
    rt: &HostRuntime,
    name: &str,
    role: Role,
    place: Result<Place<'_>, NetFault>,
    situations: &[Situation<'_>],
    options: &CheckOptions<'_>,
) -> Result<u8, Exit> {
    let mut place = match place {
        Ok(place) => place,
        Err(why) => return Ok(finish_run(rt, false, Err(EndFault::Net(why)))?),
    };
    report_address(rt, &place)?;
    let mut verdicts = Verdicts {
        cases: Text::new(rt.alloc()),
        failed: 0,
        broken: 0,
    };
    let status = play_all(rt, role, &mut place, situations, &mut verdicts)?;
    let Some(path) = options.junit else {
        return Ok(status);
    };
    let mut text = Text::new(rt.alloc());
    let count = situations.len();
    let Verdicts {
        cases,
        failed,
        broken,
    } = verdicts;
    add_suite(&mut text, name, count, failed, broken, cases.bytes())?;
    if let Err(error) = fs::write(rt, path, text.bytes()) {
        report_failed(rt, path, "cannot write the report", &error)?;
        return Ok(DEVICE);
    }
    Ok(status)
}

/// Plays one situation after another. Where one has no first connection the rest is not played.
fn play_all(
    rt: &HostRuntime,
    role: Role,
    place: &mut Place<'_>,
    situations: &[Situation<'_>],
    verdicts: &mut Verdicts,
) -> io::Result<u8> {
    let mut text = Text::new(rt.alloc());
    add_plan(&mut text, situations.len())?;
    io::writer(rt).write_all(text.bytes())?;
    for (at, situation) in situations.iter().enumerate() {
        io::writer(rt).write_all(situation.head.bytes())?;
        match play_script(rt, place, role, situation.steps.as_slice(), LISTENED)? {
            Played::Whole => report_verdict(rt, at, situation, b"", verdicts)?,
            Played::Differs(difference) => {
                report_verdict(rt, at, situation, difference.bytes(), verdicts)?;
            }
            Played::Broken(why) => report_broken(rt, at, situation, why.bytes(), verdicts)?,
            Played::Ended(status) => {
                io::writer(rt).write_all(b"Bail out!\n")?;
                for unplayed in situations.iter().skip(at) {
                    add_error(&mut verdicts.cases, unplayed.name, NOT_PLAYED)?;
                    verdicts.broken = verdicts.broken.saturating_add(1);
                }
                return Ok(status);
            }
        }
    }
    let is_passed = verdicts.failed == 0 && verdicts.broken == 0;
    Ok(if is_passed { DONE } else { BAD })
}

/// Writes that a situation broke off, and why as comments.
fn report_broken(
    rt: &HostRuntime,
    at: usize,
    situation: &Situation<'_>,
    why: &[u8],
    verdicts: &mut Verdicts,
) -> io::Result<()> {
    let mut text = Text::new(rt.alloc());
    add_verdict(&mut text, false, at.saturating_add(1), situation.name)?;
    Label::of_comment(rt.alloc())?.add(&mut text, b'\n', why)?;
    io::writer(rt).write_all(text.bytes())?;
    add_error(&mut verdicts.cases, situation.name, why)?;
    verdicts.broken = verdicts.broken.saturating_add(1);
    Ok(())
}

/// Writes the verdict on a situation, and the difference as comments, if there is one.
fn report_verdict(
    rt: &HostRuntime,
    at: usize,
    situation: &Situation<'_>,
    difference: &[u8],
    verdicts: &mut Verdicts,
) -> io::Result<()> {
    let is_passed = difference.is_empty();
    let mut text = Text::new(rt.alloc());
    add_verdict(&mut text, is_passed, at.saturating_add(1), situation.name)?;
    Label::of_comment(rt.alloc())?.add(&mut text, b'\n', difference)?;
    io::writer(rt).write_all(text.bytes())?;
    add_case(&mut verdicts.cases, situation.name, difference)?;
    if !is_passed {
        verdicts.failed = verdicts.failed.saturating_add(1);
    }
    Ok(())
}
