//! The arguments of the program, as a choice.
ghost use Rattle.std.specs.Prelude.{◌≡◌, IfErr, IfOk, map, Some, []};
ghost use Rattle.clap.specs.Words.{found_of, kind_of, rows_of, subcommand_rows_of};
ghost use Rattle.zvt_tool.specs.Chosen.{HasNoChoice, IsChoiceOf, IsFaultOf, IsMissing, IsTakenAs, MayBeChoiceOf};
ghost use Rattle.zvt_tool.specs.Chosen.{PlaysAtMost, faults_of_arguments, reading_of_arguments};

use crate::book_options::{read_book, read_loop};
use crate::choices::{Choice, ChoiceFault};
use crate::commands;
use crate::play_options::{read_check_terminal, read_check_till, read_play};
use crate::serve_options::read_serve;
use crate::tap_options::read_tap;
use crate::terminal_options::read_terminal;
use crate::till_options::read_till;
use crate::trace_command::{
    TraceCommand, read_audit, read_join, read_normalise, read_receipts, read_report, read_show,
    read_vectors,
};
use clap::error::ErrorKind;
use clap::{ArgMatches, Error};
use std::alloc::{AllocError, Global};

/// Parses the arguments. The first one is the program's name.
///
/// Fails with `Words` for a wrong argument, and also for help and the version, and with `Memory` if an allocation
/// fails.
pub fn choice<'a>(alloc: Global, arguments: &'a [&'a str]) -> Result<Choice<'a>, ChoiceFault>
    ensures chosen { IfOk result (IsChoiceOf (reading_of_arguments
        (map (λ argument. argument.now) arguments.entry.now))) }
    ensures faultless { IfOk result (λ _. faults_of_arguments
        (map (λ argument. argument.now) arguments.entry.now) ≡ []) }
    ensures refused { IfErr result (IsFaultOf (map (λ argument. argument.now) arguments.entry.now)) }
{
    let matches = matches(alloc, arguments)?;
    match matches.subcommand() {
        None => Ok(Choice::Show(TraceCommand::show(alloc))),
        Some((name, inner)) => match chosen(alloc, name, inner)? {
            Some(choice) => Ok(choice),
            None => Err(incomplete(alloc)),
        },
    }
}

/// Parses the arguments with `clap`.
fn matches<'a>(alloc: Global, arguments: &'a [&'a str]) -> Result<ArgMatches<'a>, ChoiceFault>
    ensures read { IfOk result (λ matches. subcommand_rows_of matches ≡ reading_of_arguments
        (map (λ argument. argument.now) arguments.entry.now)) }
    ensures faultless { IfOk result (λ _. faults_of_arguments
        (map (λ argument. argument.now) arguments.entry.now) ≡ []) }
    ensures refused { IfErr result (IsFaultOf (map (λ argument. argument.now) arguments.entry.now)) }
{
    let command = commands::zvt(alloc)?;
    match command.try_get_matches_from(arguments) {
        Ok(matches) => Ok(matches),
        Err(error) => Err(refused(error)),
    }
}

/// Returns the fault for an error of `clap`.
fn refused(error: Error) -> ChoiceFault
    ensures { IsTakenAs error result }
{
    if error.kind() == ErrorKind::OutOfMemory {
        ChoiceFault::Memory
    } else {
        ChoiceFault::Words(error)
    }
}

/// Returns the fault for parsed arguments that name no choice. No known arguments lead here: `clap` requires a port and
/// a book's file, has a default for the host and the other numbers, and checks each number.
fn incomplete(alloc: Global) -> ChoiceFault
    ensures { IsMissing result }
{
    match missing(alloc) {
        Ok(error) => ChoiceFault::Words(error),
        Err(_) => ChoiceFault::Memory,
    }
}

fn missing(alloc: Global) -> Result<Error, AllocError>
    ensures { IfOk result (λ error. kind_of error ≡ ErrorKind.MissingRequiredArgument) }
{
    commands::zvt(alloc)?.error(
        ErrorKind::MissingRequiredArgument,
        "a required option is missing",
    )
}

/// Returns the choice for a command's name and its arguments.
fn chosen<'a>(
    alloc: Global,
    name: &str,
    inner: &ArgMatches<'a>,
) -> Result<Option<Choice<'a>>, AllocError>
    ensures { IfOk result (MayBeChoiceOf (Some (name.now, rows_of (found_of inner.now)))) }
{
    Ok(match name {
        "show" => Some(Choice::Show(read_show(alloc, inner)?)),
        "join" => Some(Choice::Join(read_join(alloc, inner)?)),
        "normalise" => Some(Choice::Normalise(read_normalise(alloc, inner)?)),
        "audit" => Some(Choice::Audit(read_audit(alloc, inner)?)),
        "report" => Some(Choice::Report(read_report(alloc, inner)?)),
        "receipts" => Some(Choice::Receipts(read_receipts(alloc, inner)?)),
        "vectors" => Some(Choice::Vectors(read_vectors(alloc, inner)?)),
        "book" => Some(read_book(alloc, inner)?),
        "loop" => Some(read_loop(alloc, inner)?),
        "till" => read_till(alloc, inner)?,
        "terminal" => read_terminal(inner),
        "tap" => read_tap(inner),
        "serve" => read_serve(alloc, inner)?,
        "play" => read_play(inner),
        _ => check(alloc, name, inner)?,
    })
}

/// Returns the choice for the command with this name, if it plays situations.
fn check<'a>(
    alloc: Global,
    name: &str,
    inner: &ArgMatches<'a>,
) -> Result<Option<Choice<'a>>, AllocError>
    requires { PlaysAtMost name.now }
    ensures { IfOk result (MayBeChoiceOf (Some (name.now, rows_of (found_of inner.now)))) }
{
    match name {
        "check-till" => read_check_till(alloc, inner),
        "check-terminal" => read_check_terminal(alloc, inner),
        _ => Ok(None),
    }
}
