//! The texts of what steps came to: the outcomes of orders and asks.
ghost use Rattle.std.specs.Prelude.{◌≡◌, ◌++◌, OnOk};
ghost use Rattle.zvt_runs.specs.Outcomes.{asked_text, coded_text, ended_text, outcome_text, paid_text};

use crate::asking::{Asked, Ended};
use crate::settlements::settled_words;
use std::alloc::AllocError;
use zvt_bcd::Trace;
use zvt_text::Text;
use zvt_till::Outcome;

/// Adds what a step came to that was made to its end.
pub(crate) fn ended_text(text: &mut Text, ended: &Ended) -> Result<(), AllocError>
    ensures { OnOk result (text.new ≡ text.old ++ ended_text ended.now) }
{
    match ended {
        Ended::Order(outcome) => outcome_text(text, outcome),
        Ended::Ask(asked) => asked_text(text, asked),
    }
}

/// Adds what an ask came to, such as `settled unclear 1 NotPaid` or `nothing to settle`.
fn asked_text(text: &mut Text, asked: &Asked) -> Result<(), AllocError>
    ensures { OnOk result (text.new ≡ text.old ++ asked_text asked.now) }
{
    match asked {
        Asked::Nothing => text.word(b"nothing to settle"),
        Asked::Unsettled => text.word(b"not settled"),
        Asked::Settled(settlement) => settled_words(text, settlement),
    }
}

/// Adds the outcome of an order, such as `paid trace 000001 receipt 0001` or `declined 6F wrong currency`. Fails if an
/// allocation fails; the text is then incomplete.
pub(crate) fn outcome_text(text: &mut Text, outcome: &Outcome) -> Result<(), AllocError>
    ensures { OnOk result (text.new ≡ text.old ++ outcome_text outcome.now) }
{
    match outcome {
        Outcome::Registered => text.word(b"registered"),
        Outcome::Paid { trace, receipt } => paid(text, *trace, *receipt),
        Outcome::Declined(code) => coded(text, "declined ", *code),
        Outcome::Refused(code) => coded(text, "refused ", *code),
        Outcome::Aborted(code) => coded(text, "aborted ", *code),
        Outcome::Unclear(cause) => {
            text.word(b"unclear ")?;
            text.word(cause.name().as_bytes())
        }
        Outcome::Reversed => text.word(b"reversed"),
        Outcome::DayClosed => text.word(b"day closed"),
    }
}

/// Adds the numbers of a payment that was booked.
fn paid(text: &mut Text, trace: Trace, receipt: Option<[u8; 2]>) -> Result<(), AllocError>
    ensures { OnOk result (text.new ≡ text.old ++ paid_text trace receipt) }
{
    text.word(b"paid ")?;
    zvt_text::numbers(text, trace, receipt)
}

/// Adds a result of the terminal, with the meaning of its code.
fn coded(text: &mut Text, said: &str, code: u8) -> Result<(), AllocError>
    ensures { OnOk result (text.new ≡ text.old ++ coded_text said.now code) }
{
    text.word(said.as_bytes())?;
    zvt_text::result_words(text, code)
}
