//! The options of `book` and `loop`.
ghost use Rattle.std.specs.Prelude.{◌≡◌, codes, IfOk, Some};
ghost use Rattle.clap.specs.Words.{found_of, rows_of};
ghost use Rattle.zvt_tool.specs.Chosen.{IsChoiceOf};
ghost use Rattle.zvt_tool.specs.Options.{app_for};
ghost use Rattle.zvt_tool.specs.BookOptions.{book_app, loop_app};

use crate::choices::Choice;
use crate::given::{flag, text, words};
use crate::help;
use crate::options::{CommandOption, CommandRow};
use clap::ArgMatches;
use std::alloc::{AllocError, Global};

/// Returns the row of `book`: its options and help.
pub fn book_row() -> CommandRow<'static>
    ensures { app_for result ≡ book_app }
{
    CommandRow {
        name: "book",
        about: "Print a till's book: payments, reversals, unclear payments and the net total",
        more: "Lines of a book:
  booked N trace T receipt R  A completed payment, followed by the state of its reversal, if there was one:
                              reversed, reversal unclear CAUSE, or taken back
  unclear N CAUSE             A payment that may have been charged or not
  settled unclear N Paid      What the terminal said of the N-th unclear payment: Paid, with its numbers, or NotPaid
  settled booked N Reversed   What it said of the reversal of the N-th booked payment: Reversed or NotReversed
  total N                     The sum of the payments that were not reversed
FILE is read without a lock and is not changed.

Example:
  zvt book day.book",
        options: &[
            CommandOption::BookFiles(
                "Files of books; with several, every line starts with the name of its file, and the sum of \
                    the totals comes last",
            ),
            CommandOption::Flag("json", help::JSON),
            CommandOption::Flag(
                "records",
                "Print only the complete records of one book, as a trace for a pipe",
            ),
        ],
    }
}

/// Returns the row of `loop`: its options and help.
pub fn loop_row() -> CommandRow<'static>
    ensures { app_for result ≡ loop_app }
{
    CommandRow {
        name: "loop",
        about: "Run steps between a till and a simulated terminal in one process",
        more: "Default steps: register pay:1000 decline:500:6C reverse:1 close

Example:
  zvt loop register pay:1234 close",
        options: &[
            CommandOption::Value("trace", "FILE", help::TRACE),
            CommandOption::Flag("no-times", help::NO_TIMES),
            CommandOption::Value("book", "FILE", help::KEEP_BOOK),
            CommandOption::Flag("check", help::CHECK_STEPS),
            CommandOption::Flag("json", help::JSON),
            CommandOption::Several(
                "step",
                "STEP",
                "register, pay:N, decline:N:XX, reverse:N or close (see zvt --help)",
            ),
        ],
    }
}

/// Returns the choice from the arguments of `book`.
pub fn read_book<'a>(alloc: Global, inner: &ArgMatches<'a>) -> Result<Choice<'a>, AllocError>
    ensures { IfOk result (IsChoiceOf (Some (codes "book", rows_of (found_of inner.now)))) }
{
    Ok(Choice::Book {
        files: words(alloc, inner, "file")?,
        json: flag(inner, "json"),
        records: flag(inner, "records"),
    })
}

/// Returns the choice from the arguments of `loop`.
pub fn read_loop<'a>(alloc: Global, inner: &ArgMatches<'a>) -> Result<Choice<'a>, AllocError>
    ensures { IfOk result (IsChoiceOf (Some (codes "loop", rows_of (found_of inner.now)))) }
{
    Ok(Choice::Loop {
        trace: text(inner, "trace"),
        no_times: flag(inner, "no-times"),
        book: text(inner, "book"),
        check: flag(inner, "check"),
        json: flag(inner, "json"),
        steps: words(alloc, inner, "step")?,
    })
}
