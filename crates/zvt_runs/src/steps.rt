//! Runs steps one after another and prints their results.
ghost use Rattle.std.specs.Prelude.{◌≡◌, ◌<◌, ◌++◌, Err, IfErr, IfOk, OnOk, Result, false};
ghost use Rattle.std.specs.String.{string_bytes};
ghost use Rattle.zvt_till.specs.Marks.{total};
ghost use Rattle.zvt_till.specs.declared.line.RunFault.{RunFault};
ghost use Rattle.zvt_runs.specs.declared.arguments.Step.{Step};
ghost use Rattle.zvt_runs.specs.declared.asking.Ended.{Ended};
ghost use Rattle.zvt_runs.specs.Objects.{step_line, total_line};
ghost use Rattle.zvt_runs.specs.Outcomes.{broken_text, ending_text, step_text, total_text};
ghost use Rattle.zvt_runs.specs.Made.{answered, fell_short, is_silent, last_end, line_of, stop_of, succeeded};
ghost use Rattle.zvt_runs.specs.Made.{succeeded_as, wants_memory};
ghost use Rattle.zvt_runs.specs.Reporting.{Reports};
ghost use Rattle.zvt_runs.specs.Runs.{Answers, AnswersText, noting, standing};

use crate::arguments::Step;
use crate::asking::{Asked, Ended};
use crate::fault::EndFault;
use crate::notes::{note_of, report_note};
use crate::objects::{say_step_object, say_total_object};
use crate::order_notes::NoteSource;
use crate::outcomes::ended_text;
use crate::plans::{Planned, StepOptions, StepRun};
use std::alloc::{AllocError, Global};
use zvt_io::Sink;
use zvt_text::{Form, Text};
use zvt_till::{BookFault, Keeper, OrderRefusal, Outcome, RunFault, Till};

/// A line on which a till's steps are made from beginning to end.
pub(crate) trait StepLine<K: Keeper> {
    /// The step, made on this line by this till, had this result, and led to that line and that till.
    ghost makes: { Self → K → Step → Result Ended RunFault → Self → K → Type 0 };

    /// Gives the till the order of the step or lets it ask, and works on the line until nothing is running. Returns
    /// what the step came to. On `RunFault::Line`, the till was notified of the fault, and its last outcome is the
    /// result of an order; the line has to be given up.
    fn make(&mut self, alloc: Global, till: &mut K, step: &Step) -> Result<Ended, RunFault>
        ensures { makes self.old till.old step.now result self.new till.new };
}

/// Makes the steps one after another, each with the note that `notes` supplies. Each step writes a line when it ends,
/// with its word and what it came to; the last line is the till's total. `steps` selects the form of these lines. An
/// order that is unclear or was not sent, and what an ask settled, is reported in addition, with what to do.
///
/// If the connection fails, the remaining steps are skipped and the result is `Line`; if the book cannot be kept, it is
/// `Book`. A run that checks its steps ends with `Unsuccessful` if one did not succeed. An order that is not sent is a
/// different fault only if memory runs out. After `Write` and `Memory` no further step is made, and the lines of all
/// steps before the last were written; after `Write`, a prefix of the last line may be written. If `report` fails, this
/// is not a fault, and nothing more is reported.
pub(crate) fn run_steps<L: StepLine<K>, K: Keeper, W: Sink, E: Sink, N: NoteSource<K>>(
    alloc: Global,
    line: &mut L,
    till: &mut K,
    notes: &N,
    steps: &StepRun<'_>,
    writer: &mut W,
    report: &mut E,
) -> Result<(), EndFault>
    ensures run { Answers K.till (noting N.noted L.makes) steps.now.options
        (λ notes. Reports notes (E.written report.old) (E.written report.new) (E.failures report.old)
        (E.failures report.new)) steps.now.plan.now (standing line.old till.old) (standing line.new till.new)
        (W.written writer.old) (W.written writer.new) result }
    ensures write { result ≡ Err EndFault.Write → W.failures writer.old < W.failures writer.new }
{
    let mut short = false;
    let mut reports = true;
    'steps: for planned in steps.plan {
        notes.note_next(till, planned.word.as_bytes());
        let made = line.make(alloc, till, &planned.step);
        let text = line_of(alloc, steps.options.form, planned, &made, till.look())?;
        let note = note_of(alloc, planned, &made, till.look())?;
        reports = report_note(reports, &note, report);
        writer.write_all(text.bytes())?;
        if let Some(fault) = stop_of(&made) {
            write_total(alloc, till, steps.options.form, writer)?;
            return Err(fault);
        }
        short |= fell_short(&planned.step, &made);
    }
    write_total(alloc, till, steps.options.form, writer)?;
    if steps.options.check && short {
        return Err(EndFault::Unsuccessful);
    }
    Ok(())
}

/// Returns the line of a step in this form, which is empty for an ask that is not shown. The only fault is `Memory`,
/// which is also returned if the order or the ask was not sent because memory ran out.
fn line_of(
    alloc: Global,
    form: Form,
    planned: &Planned,
    made: &Result<Ended, RunFault>,
    till: &Till,
) -> Result<Text, EndFault>
    ensures text { IfOk result (λ text. text ≡ line_of form (string_bytes planned.now.word) planned.now.step made.now
        till.now.state.last_outcome) }
    ensures sent { OnOk result (wants_memory made.now ≡ false) }
    ensures memory { IfErr result (λ fault. fault ≡ EndFault.Memory) }
{
    if wants_memory(made) {
        return Err(EndFault::Memory);
    }
    let mut text = Text::new(alloc);
    if is_silent(&planned.step, made) {
        return Ok(text);
    }
    let last = last_end(&planned.step, till.last_outcome());
    say_step(alloc, &mut text, form, planned.word.as_str(), made, last)?;
    Ok(text)
}

/// Returns whether an ask has no line: it is made only if it is of use, and it settles no order.
fn is_silent(step: &Step, made: &Result<Ended, RunFault>) -> bool
    ensures { result ≡ is_silent step.now made.now }
{
    match (step, made) {
        (Step::Settle, Ok(Ended::Ask(Asked::Settled(_)))) => false,
        (Step::Settle, Ok(_)) => true,
        _ => false,
    }
}

/// Returns what a step came to that was cut off. `last` is the outcome of the till's last order.
fn last_end(step: &Step, last: Option<Outcome>) -> Option<Ended>
    ensures { result ≡ last_end step.now last }
{
    if step.order().is_none() {
        return Some(Ended::Ask(Asked::Unsettled));
    }
    match last {
        Some(outcome) => Some(Ended::Order(outcome)),
        None => None,
    }
}

/// Returns whether a step did not succeed: it was not made, was cut off, or came to something else than intended. A
/// payment that the terminal is meant to decline succeeds if it ends with the intended code.
fn fell_short(step: &Step, made: &Result<Ended, RunFault>) -> bool
    ensures { result ≡ fell_short step.now made.now }
{
    match made {
        Ok(ended) => !succeeded(step, ended),
        Err(_) => true,
    }
}

/// Returns whether a step with this end succeeded.
fn succeeded(step: &Step, ended: &Ended) -> bool
    ensures { result ≡ succeeded step.now ended.now }
{
    match ended {
        Ended::Order(outcome) => succeeded_as(step, outcome),
        Ended::Ask(asked) => answered(step, asked),
    }
}

/// Returns whether an ask succeeded: it left no pending order unsettled, or it is made only if it is of use.
fn answered(step: &Step, asked: &Asked) -> bool
    ensures { result ≡ answered step.now asked.now }
{
    match (step, asked) {
        (Step::Ask, Asked::Unsettled) => false,
        (Step::Ask | Step::Settle, _) => true,
        _ => false,
    }
}

/// Returns whether the order of a step had the intended outcome.
fn succeeded_as(step: &Step, outcome: &Outcome) -> bool
    ensures { result ≡ succeeded_as step.now outcome.now }
{
    match (step, outcome) {
        (Step::Register, Outcome::Registered) => true,
        (Step::Pay(_), Outcome::Paid { .. }) => true,
        (Step::Reverse(_), Outcome::Reversed) => true,
        (Step::CloseDay, Outcome::DayClosed) => true,
        (Step::Decline { code, .. }, Outcome::Declined(told) | Outcome::Aborted(told)) => told
            == code,
        _ => false,
    }
}

/// Adds the line of a step in this form: its word and what it came to. `last` is its end if it was cut off.
fn say_step(
    alloc: Global,
    text: &mut Text,
    form: Form,
    word: &str,
    made: &Result<Ended, RunFault>,
    last: Option<Ended>,
) -> Result<(), AllocError>
    ensures { OnOk result (text.new ≡ text.old ++ step_line form word.now made.now last) }
{
    match form {
        Form::Text => say_step_text(text, word, made, last),
        Form::Json => say_step_object(alloc, text, word, made, last),
    }
}

/// Adds the text of a step: its word and what it came to.
fn say_step_text(
    text: &mut Text,
    word: &str,
    made: &Result<Ended, RunFault>,
    last: Option<Ended>,
) -> Result<(), AllocError>
    ensures { OnOk result (text.new ≡ text.old ++ step_text word.now (ending_text made.now last)) }
{
    text.word(word.as_bytes())?;
    text.word(b" -> ")?;
    say_ending(text, made, last)?;
    text.push(b'\n')
}

/// Adds what a step came to. `last` is its end if it was cut off.
fn say_ending(
    text: &mut Text,
    made: &Result<Ended, RunFault>,
    last: Option<Ended>,
) -> Result<(), AllocError>
    ensures { OnOk result (text.new ≡ text.old ++ ending_text made.now last) }
{
    match made {
        Ok(ended) => ended_text(text, ended),
        Err(RunFault::Order(why)) => {
            text.word(b"not sent: ")?;
            text.word(why.name().as_bytes())
        }
        Err(RunFault::Book(BookFault::NoSpace)) => text.word(b"not sent: NoSpace"),
        Err(RunFault::Book(BookFault::Failed)) => say_last(text, last),
        Err(RunFault::Line(_)) => say_last(text, last),
    }
}

/// Adds what a step came to that was cut off.
fn say_last(text: &mut Text, last: Option<Ended>) -> Result<(), AllocError>
    ensures { OnOk result (text.new ≡ text.old ++ broken_text last) }
{
    match &last {
        Some(ended) => ended_text(text, ended),
        None => Ok(()),
    }
}

/// Returns why no further step is made, if so: the line broke, or the book could not be kept.
fn stop_of(made: &Result<Ended, RunFault>) -> Option<EndFault>
    ensures { result ≡ stop_of made.now }
{
    match made {
        Ok(_) => None,
        Err(RunFault::Order(_)) => None,
        Err(RunFault::Line(fault)) => Some(EndFault::Line(*fault)),
        Err(RunFault::Book(_)) => Some(EndFault::Book),
    }
}

/// Returns whether the order or the ask was not sent because memory ran out.
fn wants_memory(made: &Result<Ended, RunFault>) -> bool
    ensures { result ≡ wants_memory made.now }
{
    matches!(made, Err(RunFault::Order(OrderRefusal::Memory)))
}

/// Writes the till's total in this form.
fn write_total<K: Keeper, W: Sink>(
    alloc: Global,
    till: &K,
    form: Form,
    writer: &mut W,
) -> Result<(), EndFault>
    ensures text { AnswersText (total_line form (total (K.till till.now).state.book)) (W.written writer.old)
        (W.written writer.new) result }
    ensures write { result ≡ Err EndFault.Write → W.failures writer.old < W.failures writer.new }
{
    let total = till.look().total();
    let mut text = Text::new(alloc);
    say_total_line(&mut text, form, total)?;
    writer.write_all(text.bytes())?;
    Ok(())
}

/// Adds the line of a total in this form.
fn say_total_line(text: &mut Text, form: Form, total: u64) -> Result<(), AllocError>
    ensures { OnOk result (text.new ≡ text.old ++ total_line form total) }
{
    match form {
        Form::Text => say_total(text, total),
        Form::Json => say_total_object(text, total),
    }
}

/// Adds the text of a total.
pub(crate) fn say_total(text: &mut Text, total: u64) -> Result<(), AllocError>
    ensures { OnOk result (text.new ≡ text.old ++ total_text total) }
{
    text.word(b"total ")?;
    text.number(total)?;
    text.push(b'\n')
}
