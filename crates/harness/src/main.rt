//! Runs of the libraries without the program `zvt`. In most of them each call that wants memory is made again: where
//! one request for memory of the whole program is refused, which `tests/fault_injection.py` sees to, the first call has
//! to leave all as it was, and the second has to answer what the call answers with all its memory. It makes the run
//! that its word names, or all, and says of each whether it went so. Its status is 0 then, 1 where one went otherwise,
//! 2 where none is called so, and 5 where memory was wanted for the words or for what a run is made of.
//!
//! Under `time-replay N`, `time-orders N` and `time-scan N` it spends time in them instead, for bench/payments and
//! bench/scan; under `time-kept N FILE` it keeps the book of N payments in a file, for bench/journal.
#![tactic(auto)]

mod kept;
mod ordering;
mod paying;
mod reading;
mod timed;

use std::alloc::AllocError;
use std::process::ExitCode;
use std::{env, io};
use timed::Work;

/// The words of the runs.
const RUNS: [&str; 8] = [
    "scan", "feed", "view", "push", "replay", "world", "calls", "order",
];

fn main(rt: HostRuntime) -> ExitCode {
    match make_runs(&rt) {
        Ok(status) => ExitCode::from(status),
        Err(_) => ExitCode::from(4),
    }
}

/// Makes the runs that are asked for, and answers the exit status.
fn make_runs(rt: &HostRuntime) -> io::Result<u8> {
    let Ok(words) = env::args(rt) else {
        return Ok(5);
    };
    let mut words = words.skip(1);
    let Some(name) = words.next() else {
        let status = check_all(rt)?;
        timed::run(rt, Work::Replay, 100)?;
        timed::run(rt, Work::Orders, 100)?;
        return Ok(status);
    };
    if name.as_str() == "time-kept" {
        return time_kept(rt, words.next(), words.next());
    }
    let Some(work) = work_of(name.as_str()) else {
        return check(rt, name.as_str());
    };
    timed::run(rt, work, times_of(words.next()))?;
    Ok(0)
}

/// How often something is to be done by this word.
fn times_of(word: Option<String>) -> u32 {
    match word {
        Some(number) => number.parse::<u32>().unwrap_or(100),
        None => 100,
    }
}

/// Takes this number of payments with a book in the file, and returns the exit status.
fn time_kept(rt: &HostRuntime, times: Option<String>, path: Option<String>) -> io::Result<u8> {
    let Some(path) = path else {
        eprintln!(rt; "harness: time-kept needs a number and a file")?;
        return Ok(2);
    };
    kept::run(rt, path.as_str(), times_of(times))?;
    Ok(0)
}

/// The work that is to be timed by this word.
fn work_of(word: &str) -> Option<Work> {
    match word {
        "time-replay" => Some(Work::Replay),
        "time-orders" => Some(Work::Orders),
        "time-scan" => Some(Work::Scan),
        _ => None,
    }
}

/// Makes each run whose memory may be refused, and answers the exit status.
fn check_all(rt: &HostRuntime) -> io::Result<u8> {
    let mut status = 0;
    for name in RUNS {
        let went = check(rt, name)?;
        if status == 0 {
            status = went;
        }
    }
    Ok(status)
}

/// Makes the run of this name, says how it went, and answers the exit status.
fn check(rt: &HostRuntime, name: &str) -> io::Result<u8> {
    match went(rt, name) {
        Ok(Some(said)) => {
            println!(rt; "{name}: {said}")?;
            Ok(if said == WRONG { 1 } else { 0 })
        }
        Ok(None) => {
            eprintln!(rt; "harness: no run is called {name}")?;
            Ok(2)
        }
        Err(AllocError) => Ok(5),
    }
}

/// What is said of a run that went as it should.
pub const RIGHT: &str = "as expected";

/// Of one that went otherwise.
pub const WRONG: &str = "not as expected";

/// Makes the run of this name, if there is one, and answers what is to be said of it.
fn went(rt: &HostRuntime, name: &str) -> Result<Option<&'static str>, AllocError> {
    let alloc = rt.alloc();
    let is_right = match name {
        "scan" => reading::scans(alloc),
        "feed" => reading::feeds(alloc),
        "view" => reading::feeds_views(alloc),
        "push" => reading::pushes(alloc)?,
        "replay" => paying::replays(alloc)?,
        "world" => paying::worlds(alloc),
        "calls" => ordering::calls(alloc)?,
        "order" => return Ok(Some(ordering::orders(alloc))),
        _ => return Ok(None),
    };
    Ok(Some(if is_right { RIGHT } else { WRONG }))
}
