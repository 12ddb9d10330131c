//! The program's commands.
ghost use Rattle.std.specs.Prelude.{◌≡◌, IfOk, false};
ghost use Rattle.clap.specs.Words.{app_of, new_app};
ghost use Rattle.clap.specs.declared.builder.command.Command.TheViews.{out-Command as fields_of};
ghost use Rattle.zvt_tool.specs.Commands.{program_app, zvt_app};
ghost use Rattle.zvt_tool.specs.Options.{app_for};

use crate::book_options::{book_row, loop_row};
use crate::help;
use crate::options::CommandRow;
use crate::play_options::{check_terminal_row, check_till_row, play_row};
use crate::serve_options::serve_row;
use crate::tap_options::tap_row;
use crate::terminal_options::terminal_row;
use crate::till_options::till_row;
use crate::trace_rows::{
    audit_row, join_row, normalise_row, receipts_row, report_row, show_row, vectors_row,
};
use clap::Command;
use std::alloc::{AllocError, Global};

const VERSION: &str = "0.2.0";

/// Returns the program's command line.
pub fn zvt<'a>(alloc: Global) -> Result<Command<'a>, AllocError>
    ensures { IfOk result (λ r. app_of r ≡ zvt_app) }
{
    let rows = [
        show_row(),
        join_row(),
        normalise_row(),
        audit_row(),
        report_row(),
        receipts_row(),
        vectors_row(),
        book_row(),
        loop_row(),
        till_row(),
        terminal_row(),
        tap_row(),
        serve_row(),
        play_row(),
        check_till_row(),
        check_terminal_row(),
    ];
    let mut program = program(alloc);
    'commands: for row in &rows {
        program = program.subcommand(command(alloc, row)?)?;
    }
    Ok(program)
}

/// Returns the program without a command.
fn program<'a>(alloc: Global) -> Command<'a>
    ensures { app_of result ≡ program_app }
{
    plain(alloc, "zvt", help::PROGRAM, help::MORE)
        .version(VERSION)
        .subcommand_value_name(help::NAMES)
}

/// Returns a command without options, with the texts before and after its usage.
fn plain<'a>(alloc: Global, name: &'a str, about: &'a str, more: &'a str) -> Command<'a>
    ensures app { app_of result ≡ new_app name.entry.now }
    ensures local { (fields_of result).has_globals ≡ false }
{
    Command::new(alloc, name).about(about).after_help(more)
}

/// Returns the command of this row.
fn command<'a>(alloc: Global, row: &CommandRow<'a>) -> Result<Command<'a>, AllocError>
    ensures app { IfOk result (λ r. app_of r ≡ app_for row.now) }
    ensures local { IfOk result (λ r. (fields_of r).has_globals ≡ false) }
{
    let mut options = Vec::new(alloc);
    'options: for option in row.options {
        options.push(option.arg(alloc))?;
    }
    plain(alloc, row.name, row.about, row.more).args(options)
}
