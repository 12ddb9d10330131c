//! The lines of a run as JSON objects.
ghost use Rattle.std.specs.Prelude.{◌≡◌, ◌++◌, IfOk, OnOk, None, false};
ghost use Rattle.serde_json.specs.Data.{Data};
ghost use Rattle.serde_json.specs.View.{view};
ghost use Rattle.serde_json.specs.Written.{has_float};
ghost use Rattle.zvt_json.specs.Strings.{line_text};
ghost use Rattle.zvt_runs.specs.Objects.{asked_value, broken_value, coded_value, end_value, ended_value};
ghost use Rattle.zvt_runs.specs.Objects.{outcome_value, paid_value, settled_step, step_value, total_value};
ghost use Rattle.zvt_runs.specs.Objects.{unsent_value};

use crate::asking::{Asked, Ended};
use crate::quoted::say_escaped;
use crate::settlements::say_settled;
use serde_json::{Value, json};
use std::alloc::{AllocError, Global};
use zvt_bcd::Trace;
use zvt_settle::Settlement;
use zvt_text::Text;
use zvt_till::{BookFault, Outcome, RunFault};

/// Adds the object of a step: its word and what it came to. `last` is its end if the line broke or the book failed.
pub(crate) fn say_step_object(
    alloc: Global,
    text: &mut Text,
    word: &str,
    made: &Result<Ended, RunFault>,
    last: Option<Ended>,
) -> Result<(), AllocError>
    ensures { OnOk result (text.new ≡ text.old ++ line_text (step_value word.now made.now last)) }
{
    match made {
        Ok(ended) => say_end(alloc, text, word, ended),
        Err(RunFault::Order(why)) => say_unsent(alloc, text, word, why.name()),
        Err(RunFault::Book(BookFault::NoSpace)) => say_unsent(alloc, text, word, "NoSpace"),
        Err(RunFault::Book(BookFault::Failed)) => say_broken(alloc, text, word, last),
        Err(RunFault::Line(_)) => say_broken(alloc, text, word, last),
    }
}

/// Adds the object of a step that was not made, with the reason.
fn say_unsent(alloc: Global, text: &mut Text, word: &str, reason: &str) -> Result<(), AllocError>
    ensures { OnOk result (text.new ≡ text.old ++ line_text (unsent_value word.now reason.now)) }
{
    let object = unsent_object(alloc, word, reason)?;
    say_value(alloc, text, &object)
}

/// Returns the object of a step that was not made, with the reason.
fn unsent_object(alloc: Global, word: &str, reason: &str) -> Result<Value, AllocError>
    ensures { IfOk result (λ object. view object ≡ unsent_value word.now reason.now) }
{
    json!(in alloc; {"outcome": "not sent", "reason": reason, "step": word})
}

/// Adds the object of a step that was cut off.
fn say_broken(
    alloc: Global,
    text: &mut Text,
    word: &str,
    last: Option<Ended>,
) -> Result<(), AllocError>
    ensures { OnOk result (text.new ≡ text.old ++ line_text (broken_value word.now last)) }
{
    match &last {
        Some(ended) => say_end(alloc, text, word, ended),
        None => say_unended(alloc, text, word),
    }
}

/// Adds the object of a step whose line broke before any order had ended.
fn say_unended(alloc: Global, text: &mut Text, word: &str) -> Result<(), AllocError>
    ensures { OnOk result (text.new ≡ text.old ++ line_text (broken_value word.now None)) }
{
    let object = unended_object(alloc, word)?;
    say_value(alloc, text, &object)
}

/// Returns the object of a step whose line broke before any order had ended.
fn unended_object(alloc: Global, word: &str) -> Result<Value, AllocError>
    ensures { IfOk result (λ object. view object ≡ broken_value word.now None) }
{
    json!(in alloc; {"step": word})
}

/// Adds the object of a step that was made to its end.
fn say_end(alloc: Global, text: &mut Text, word: &str, ended: &Ended) -> Result<(), AllocError>
    ensures { OnOk result (text.new ≡ text.old ++ line_text (end_value word.now ended.now)) }
{
    match ended {
        Ended::Order(outcome) => say_outcome(alloc, text, word, outcome),
        Ended::Ask(asked) => say_asked(alloc, text, word, asked),
    }
}

/// Adds the object of an ask.
fn say_asked(alloc: Global, text: &mut Text, word: &str, asked: &Asked) -> Result<(), AllocError>
    ensures { OnOk result (text.new ≡ text.old ++ line_text (asked_value word.now asked.now)) }
{
    match asked {
        Asked::Nothing => say_ended(alloc, text, word, "nothing to settle"),
        Asked::Unsettled => say_ended(alloc, text, word, "not settled"),
        Asked::Settled(settlement) => say_settled_step(text, word, settlement),
    }
}

/// Adds the object of a step with this outcome.
fn say_outcome(
    alloc: Global,
    text: &mut Text,
    word: &str,
    outcome: &Outcome,
) -> Result<(), AllocError>
    ensures { OnOk result (text.new ≡ text.old ++ line_text (outcome_value word.now outcome.now)) }
{
    let object = outcome_object(alloc, word, outcome)?;
    say_value(alloc, text, &object)
}

/// Adds the object of a step that ended without details.
fn say_ended(alloc: Global, text: &mut Text, word: &str, name: &str) -> Result<(), AllocError>
    ensures { OnOk result (text.new ≡ text.old ++ line_text (ended_value name.now word.now)) }
{
    let object = ended_object(alloc, word, name)?;
    say_value(alloc, text, &object)
}

/// Adds the object of an ask that settled an order.
fn say_settled_step(text: &mut Text, word: &str, settlement: &Settlement) -> Result<(), AllocError>
    ensures { OnOk result (text.new ≡ text.old ++ line_text (settled_step word.now settlement.now)) }
{
    text.word(b"{\"outcome\":\"settled\",\"settled\":")?;
    say_settled(text, settlement)?;
    text.word(b",\"step\":\"")?;
    say_escaped(text, word.as_bytes())?;
    text.word(b"\"}\n")
}

/// Adds an object as a line.
fn say_value(alloc: Global, text: &mut Text, object: &Value) -> Result<(), AllocError>
    ensures { (value : Data) → view object.now ≡ value → has_float value ≡ false → OnOk result (text.new ≡ text.old ++
        line_text value) }
{
    let line = object.to_string(alloc)?;
    text.word(line.as_bytes())?;
    text.push(b'\n')
}

/// Adds the object of a total.
pub(crate) fn say_total_object(text: &mut Text, total: u64) -> Result<(), AllocError>
    ensures { OnOk result (text.new ≡ text.old ++ line_text (total_value total)) }
{
    text.word(b"{\"total\":")?;
    text.number(total)?;
    text.word(b"}\n")
}

/// Returns the object of a step with this outcome.
fn outcome_object(alloc: Global, word: &str, outcome: &Outcome) -> Result<Value, AllocError>
    ensures { IfOk result (λ object. view object ≡ outcome_value word.now outcome.now) }
{
    match outcome {
        Outcome::Registered => ended_object(alloc, word, "registered"),
        Outcome::Paid { trace, receipt } => paid_object(alloc, word, *trace, *receipt),
        Outcome::Declined(code) => coded_object(alloc, word, "declined", *code),
        Outcome::Refused(code) => coded_object(alloc, word, "refused", *code),
        Outcome::Aborted(code) => coded_object(alloc, word, "aborted", *code),
        Outcome::Unclear(cause) => {
            json!(in alloc; {"cause": cause.name(), "outcome": "unclear", "step": word})
        }
        Outcome::Reversed => ended_object(alloc, word, "reversed"),
        Outcome::DayClosed => ended_object(alloc, word, "day closed"),
    }
}

/// Returns the object of a step whose outcome has no details.
fn ended_object(alloc: Global, word: &str, name: &str) -> Result<Value, AllocError>
    ensures { IfOk result (λ object. view object ≡ ended_value name.now word.now) }
{
    json!(in alloc; {"outcome": name, "step": word})
}

/// Returns the object of a payment that was booked.
fn paid_object(
    alloc: Global,
    word: &str,
    trace: Trace,
    receipt: Option<[u8; 2]>,
) -> Result<Value, AllocError>
    ensures { IfOk result (λ object. view object ≡ paid_value word.now trace receipt) }
{
    let trace = trace.get();
    let Some(number) = receipt else {
        return json!(in alloc; {"outcome": "paid", "step": word, "trace": trace});
    };
    let digits = hex::encode_upper(alloc, number)?;
    json!(in alloc; {"outcome": "paid", "receipt": &digits, "step": word, "trace": trace})
}

/// Returns the object of a step that the terminal ended with this code, with the meaning of the code.
fn coded_object(alloc: Global, word: &str, name: &str, code: u8) -> Result<Value, AllocError>
    ensures { IfOk result (λ object. view object ≡ coded_value name.now word.now code) }
{
    let digits = hex::encode_upper(alloc, [code])?;
    match zvt_text::meaning(code) {
        Some(words) => {
            json!(in alloc; {"code": &digits, "outcome": name, "step": word, "words": words})
        }
        None => json!(in alloc; {"code": &digits, "outcome": name, "step": word}),
    }
}
