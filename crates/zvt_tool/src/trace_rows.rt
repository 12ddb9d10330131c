//! The names, options and help of the commands on traces, and on vectors.
ghost use Rattle.std.specs.Prelude.{◌≡◌};
ghost use Rattle.zvt_tool.specs.Options.{app_for};
ghost use Rattle.zvt_tool.specs.TraceCommands.{audit_app, join_app, normalise_app, receipts_app, report_app};
ghost use Rattle.zvt_tool.specs.TraceCommands.{show_app, vectors_app};

use crate::help;
use crate::options::{CommandOption, CommandRow};

/// Returns the row of `show`: its options and help.
pub fn show_row() -> CommandRow<'static>
    ensures { app_for result ≡ show_app }
{
    CommandRow {
        name: "show",
        about: "Print each message of a trace with its fields (default)",
        more: "Example:
  zvt show payment.trace",
        options: &[
            CommandOption::Several("file", "FILE", help::FILES),
            CommandOption::Flag("loose", help::LOOSE),
            CommandOption::Flag("json", help::JSON),
            CommandOption::Flag("follow", help::FOLLOW),
            CommandOption::Flag("open", help::OPEN),
            CommandOption::Flag("resync", "Another name for --open"),
            CommandOption::Flag(
                "safe",
                "Also hide card data in TLV objects, and the data of messages named Other",
            ),
            CommandOption::Flag("explain", "Also print what codes and numbers mean"),
            CommandOption::Flag(
                "times",
                "Begin each message with its time, if the trace has it",
            ),
        ],
    }
}

/// Returns the row of `join`: its options and help.
pub fn join_row() -> CommandRow<'static>
    ensures { app_for result ≡ join_app }
{
    CommandRow {
        name: "join",
        about: "Rewrite a trace with one message per line",
        more: "Example:
  zvt join payment.trace",
        options: &[
            CommandOption::Several("file", "FILE", help::FILES),
            CommandOption::Flag("follow", help::FOLLOW),
        ],
    }
}

/// Returns the row of `normalise`: its options and help.
pub fn normalise_row() -> CommandRow<'static>
    ensures { app_for result ≡ normalise_app }
{
    CommandRow {
        name: "normalise",
        about: "Like join, and rewrite padded lengths in their shortest form",
        more: "Accepts padded lengths, as with --loose. Its output has the shortest lengths only.

Example:
  zvt normalise padded.trace",
        options: &[CommandOption::Several("file", "FILE", help::FILES)],
    }
}

/// Returns the row of `audit`: its options and help.
pub fn audit_row() -> CommandRow<'static>
    ensures { app_for result ≡ audit_app }
{
    CommandRow {
        name: "audit",
        about: "List the booked and the unclear payments of a trace, and their total",
        more: "Give each terminal a trace of its own: in one trace, two terminals use each other's trace numbers up.

Example:
  zvt audit --check shop1.trace shop2.trace",
        options: &[
            CommandOption::Several("file", "FILE", help::FILES),
            CommandOption::Flag("loose", help::LOOSE),
            CommandOption::Flag(
                "check",
                "Exit with 1 if a payment is unclear, or if money moved that the audit does not follow",
            ),
            CommandOption::Flag("json", help::JSON),
            CommandOption::Flag(
                "follow",
                "Read FILE as it grows, of any size; the books are printed at its end",
            ),
            CommandOption::Flag("open", help::OPEN_AUDIT),
        ],
    }
}

/// Returns the row of `report`: its options and help.
pub fn report_row() -> CommandRow<'static>
    ensures { app_for result ≡ report_app }
{
    CommandRow {
        name: "report",
        about: "Explain what became of each payment and reversal of a trace, and what to look at",
        more: "Unlike an audit, a report subtracts what was taken back. It reads on after a refused message, at the
end that its length announces, and counts it by its control bytes.

Example:
  zvt report --zone +01:00 --check till1.trace",
        options: &[
            CommandOption::Several("file", "FILE", help::FILES),
            CommandOption::Flag("loose", help::LOOSE),
            CommandOption::Flag(
                "check",
                "Exit with 1 if there is a case that someone must act on",
            ),
            CommandOption::Flag("json", help::JSON),
            CommandOption::Flag(
                "html",
                "Write a page for a browser, with an index of several FILEs",
            ),
            CommandOption::Value(
                "zone",
                "+HH:MM",
                "Show times in this zone, e.g. --zone +01:00 or --zone=-05:00 (default UTC)",
            ),
            CommandOption::Flag(
                "strict",
                "After a refused message, read nothing until the connection is lost, as a till would",
            ),
        ],
    }
}

/// Returns the row of `receipts`: its options and help.
pub fn receipts_row() -> CommandRow<'static>
    ensures { app_for result ≡ receipts_app }
{
    CommandRow {
        name: "receipts",
        about: "Print the receipt lines that the terminal sent",
        more: "Example:
  zvt receipts --text-blocks --codepage 437 payment.trace",
        options: &[
            CommandOption::Several("file", "FILE", help::FILES),
            CommandOption::Flag("loose", help::LOOSE),
            CommandOption::Flag("json", help::JSON),
            CommandOption::Flag("follow", help::FOLLOW),
            CommandOption::Flag("open", help::OPEN),
            CommandOption::Flag("text-blocks", help::TEXT_BLOCKS),
            CommandOption::Value("codepage", "PAGE", help::CODEPAGE),
        ],
    }
}

/// Returns the row of `vectors`: its options and help.
pub fn vectors_row() -> CommandRow<'static>
    ensures { app_for result ≡ vectors_app }
{
    CommandRow {
        name: "vectors",
        about: "Check the message parser against test vectors, and print those that fail",
        more: "Lines of vectors:
  HEX = ANSWER  Bytes, and what a reader returns: whole N, more, or refused at P: REASON
  # TEXT        Comment. Empty lines are ignored.

Example:
  zvt vectors examples/vectors.txt",
        options: &[
            CommandOption::Several("file", "FILE", help::FILES),
            CommandOption::Flag("json", help::JSON),
        ],
    }
}
