//! Notes on the steps of a run: what to do after an order that is unclear or was not sent.
ghost use Rattle.std.specs.Prelude.{◌≡◌, ◌++◌, IfErr, IfOk, List, OnOk, Option, codes, slice_get, ℕ};
ghost use Rattle.std.specs.String.{string_bytes};
ghost use Rattle.hex.specs.Hex.{encode_upper};
ghost use Rattle.zvt_runs.specs.Reporting.{ReportedSoFar};
ghost use Rattle.zvt_runs.specs.Named.{named_text};
ghost use Rattle.zvt_runs.specs.Notes.{advice, asked_note, closing_note, ended_note, entry_numbers, heard_text};
ghost use Rattle.zvt_runs.specs.Notes.{last_note, no_space_note, of_payment, outcome_note, payment_note};
ghost use Rattle.zvt_runs.specs.Notes.{registration_note, reversal_note, reversing, row_note, row_settled};
ghost use Rattle.zvt_runs.specs.Notes.{settlement_note, step_note, unsent_note, why_unclear, why_unsent};

use crate::arguments::Step;
use crate::asking::{Asked, Ended};
use crate::fault::EndFault;
use crate::plans::Planned;
use crate::settlements::say_counted;
use std::alloc::{AllocError, Global};
use zvt_bcd::Amount;
use zvt_io::Sink;
use zvt_settle::Settlement;
use zvt_text::Text;
use zvt_till::{BookFault, Cause, Entry, Numbers, OrderRefusal, Outcome, RunFault, Till};

/// Returns the note on a step: what a person has to know about it and do. For an unclear order, it says which numbers
/// the terminal named; for an order that was not sent, why not. For any other step it is empty. The only fault is
/// `Memory`.
pub(crate) fn note_of(
    alloc: Global,
    planned: &Planned,
    made: &Result<Ended, RunFault>,
    till: &Till,
) -> Result<Text, EndFault>
    ensures text { IfOk result (λ text. text ≡ step_note (string_bytes planned.now.word) planned.now.step made.now
        till.now) }
    ensures memory { IfErr result (λ fault. fault ≡ EndFault.Memory) }
{
    let mut text = Text::new(alloc);
    say_note(&mut text, planned, made, till)?;
    Ok(text)
}

/// Writes a note to a device that has not failed, and returns whether it still works. Writes nothing to a device that
/// has failed.
pub(crate) fn report_note<E: Sink>(works: bool, note: &Text, report: &mut E) -> bool
    ensures { (first : Option (List ℕ)) (count : ℕ) (text : List ℕ) → ReportedSoFar works first (E.written report.old)
        count (E.failures report.old) text
        → ReportedSoFar result first (E.written report.new) count (E.failures report.new) (text ++ note.now) }
{
    if !works {
        return false;
    }
    report.write_all(note.bytes()).is_ok()
}

/// Adds the note on a step with this result.
fn say_note(
    text: &mut Text,
    planned: &Planned,
    made: &Result<Ended, RunFault>,
    till: &Till,
) -> Result<(), AllocError>
    ensures { OnOk result (text.new ≡ text.old ++ step_note (string_bytes planned.now.word) planned.now.step made.now
        till.now) }
{
    match made {
        Ok(ended) => say_ended(text, &planned.step, ended, till),
        Err(RunFault::Order(why)) => say_unsent(text, planned.word.as_str(), *why),
        Err(RunFault::Book(BookFault::NoSpace)) => say_no_space(text, planned.word.as_str()),
        Err(RunFault::Book(BookFault::Failed)) => say_last(text, &planned.step, till),
        Err(RunFault::Line(_)) => say_last(text, &planned.step, till),
    }
}

/// Adds the note on a step that was made to its end.
fn say_ended(text: &mut Text, step: &Step, ended: &Ended, till: &Till) -> Result<(), AllocError>
    ensures { OnOk result (text.new ≡ text.old ++ ended_note step.now ended.now till.now) }
{
    match ended {
        Ended::Order(outcome) => say_outcome(text, step, outcome, till),
        Ended::Ask(asked) => say_asked(text, asked),
    }
}

/// Adds the note on an ask.
fn say_asked(text: &mut Text, asked: &Asked) -> Result<(), AllocError>
    ensures { OnOk result (text.new ≡ text.old ++ asked_note asked.now) }
{
    match asked {
        Asked::Nothing => Ok(()),
        Asked::Unsettled => text.word(
            b"zvt: the terminal's answer does not settle the unclear order: look at the terminal's journal or its \
                last receipt\n",
        ),
        Asked::Settled(settlement) => say_settlement(text, settlement),
    }
}

/// Adds the note on a settlement: what became of which order, and what follows.
fn say_settlement(text: &mut Text, settlement: &Settlement) -> Result<(), AllocError>
    ensures { OnOk result (text.new ≡ text.old ++ settlement_note settlement.now) }
{
    text.word(b"zvt: ")?;
    say_row_settled(text, settlement)?;
    text.word(settlement.words().as_bytes())?;
    say_advice(text, settlement)
}

/// Adds which row of the book was settled.
fn say_row_settled(text: &mut Text, settlement: &Settlement) -> Result<(), AllocError>
    ensures { OnOk result (text.new ≡ text.old ++ row_settled settlement.now) }
{
    match *settlement {
        Settlement::Paid(row, ..) => say_counted(text, b"unclear payment ", row, b": "),
        Settlement::NotPaid(row) => say_counted(text, b"unclear payment ", row, b": "),
        Settlement::Reversed(entry) => say_counted(text, b"booked payment ", entry, b": "),
        Settlement::NotReversed(entry) => say_counted(text, b"booked payment ", entry, b": "),
    }
}

/// Adds what follows from a settlement.
fn say_advice(text: &mut Text, settlement: &Settlement) -> Result<(), AllocError>
    ensures { OnOk result (text.new ≡ text.old ++ advice settlement.now) }
{
    match *settlement {
        Settlement::Paid(_, trace, receipt) => {
            let trace = Some(trace);
            text.word(b" as")?;
            say_named(text, Numbers { trace, receipt })?;
            text.word(b": do not order it again\n")
        }
        Settlement::NotPaid(_) => text.word(b": you may order it again\n"),
        Settlement::Reversed(_) => text.word(b": do not refund the amount again\n"),
        Settlement::NotReversed(_) => text.word(b": you may reverse it again\n"),
    }
}

/// Adds the note on an order that was cut off.
fn say_last(text: &mut Text, step: &Step, till: &Till) -> Result<(), AllocError>
    ensures { OnOk result (text.new ≡ text.old ++ last_note step.now till.now.state.last_outcome till.now) }
{
    match till.last_outcome() {
        Some(outcome) => say_outcome(text, step, &outcome, till),
        None => Ok(()),
    }
}

/// Adds that an order was not sent, and why.
fn say_unsent(text: &mut Text, word: &str, why: OrderRefusal) -> Result<(), AllocError>
    ensures { OnOk result (text.new ≡ text.old ++ unsent_note word.now why) }
{
    text.word(b"zvt: ")?;
    text.word(word.as_bytes())?;
    text.word(b" was not sent")?;
    say_why_unsent(text, why)
}

/// Adds that an order was not sent because the book has no room for its records, and what to do.
fn say_no_space(text: &mut Text, word: &str) -> Result<(), AllocError>
    ensures { OnOk result (text.new ≡ text.old ++ no_space_note word.now) }
{
    text.word(b"zvt: ")?;
    text.word(word.as_bytes())?;
    text.word(
        b" was not sent (NoSpace): the disk of the book has no room for the records of a payment: free some \
            space, then run the step again\n",
    )
}

/// Adds why an order was not sent.
fn say_why_unsent(text: &mut Text, why: OrderRefusal) -> Result<(), AllocError>
    ensures { OnOk result (text.new ≡ text.old ++ why_unsent why) }
{
    text.word(b" (")?;
    text.word(why.name().as_bytes())?;
    text.word(b"): ")?;
    text.word(why.words().as_bytes())?;
    text.push(b'\n')
}

/// Adds the note on an order with this outcome.
fn say_outcome(
    text: &mut Text,
    step: &Step,
    outcome: &Outcome,
    till: &Till,
) -> Result<(), AllocError>
    ensures { OnOk result (text.new ≡ text.old ++ outcome_note step.now outcome.now till.now) }
{
    let Outcome::Unclear(cause) = outcome else {
        return Ok(());
    };
    match step {
        Step::Register => say_registration(text, *cause),
        Step::Pay(amount) => say_payment(text, *amount, *cause, till.numbers()),
        Step::Decline { amount, .. } => say_payment(text, *amount, *cause, till.numbers()),
        Step::Reverse(entry) => say_row(text, *entry, *cause, till),
        Step::CloseDay => say_closing(text, *cause),
        Step::Ask | Step::Settle => Ok(()),
    }
}

/// Adds that a payment is unclear.
fn say_payment(
    text: &mut Text,
    amount: Amount,
    cause: Cause,
    numbers: Numbers,
) -> Result<(), AllocError>
    ensures { OnOk result (text.new ≡ text.old ++ payment_note amount cause numbers) }
{
    text.word(b"zvt: the payment of ")?;
    text.number(amount.get())?;
    say_why(text, cause)?;
    say_heard(text, numbers)?;
    text.word(
        b". It may have been charged or not: look at the terminal's journal or its last receipt before you order \
            it again\n",
    )
}

/// Adds that the reversal of the entry at this index of the book is unclear.
fn say_row(text: &mut Text, place: usize, cause: Cause, till: &Till) -> Result<(), AllocError>
    ensures { OnOk result (text.new ≡ text.old ++ row_note place (slice_get till.now.state.book place) cause
        till.now.numbers) }
{
    match till.book().get(place) {
        Some(entry) => say_reversal(text, place, entry, cause, till.numbers()),
        None => Ok(()),
    }
}

/// Adds that the reversal of this entry is unclear.
fn say_reversal(
    text: &mut Text,
    place: usize,
    entry: &Entry,
    cause: Cause,
    numbers: Numbers,
) -> Result<(), AllocError>
    ensures { OnOk result (text.new ≡ text.old ++ reversal_note place entry.now cause numbers) }
{
    say_step(text, place)?;
    say_entry(text, entry)?;
    say_why(text, cause)?;
    say_heard(text, numbers)?;
    text.word(
        b". It may have been taken back or not: look at the terminal's journal before you refund the amount\n",
    )
}

/// Adds the step that reverses the entry at this index.
fn say_step(text: &mut Text, place: usize) -> Result<(), AllocError>
    ensures { OnOk result (text.new ≡ text.old ++ reversing place) }
{
    text.word(b"zvt: reverse:")?;
    text.number(place as u128 + 1)
}

/// Adds the amount and the numbers of an entry.
fn say_entry(text: &mut Text, entry: &Entry) -> Result<(), AllocError>
    ensures { OnOk result (text.new ≡ text.old ++ of_payment entry.now) }
{
    text.word(b" of the payment of ")?;
    text.number(entry.amount.get())?;
    say_numbers(text, entry)
}

/// Adds the numbers of an entry.
fn say_numbers(text: &mut Text, entry: &Entry) -> Result<(), AllocError>
    ensures { OnOk result (text.new ≡ text.old ++ entry_numbers entry.now) }
{
    text.word(b" (")?;
    zvt_text::numbers(text, entry.trace, entry.receipt)?;
    text.push(b')')
}

/// Adds that a registration is unclear.
fn say_registration(text: &mut Text, cause: Cause) -> Result<(), AllocError>
    ensures { OnOk result (text.new ≡ text.old ++ registration_note cause) }
{
    text.word(b"zvt: the registration")?;
    say_why(text, cause)?;
    text.word(b". The terminal may be busy with another till\n")
}

/// Adds that an end of day is unclear.
fn say_closing(text: &mut Text, cause: Cause) -> Result<(), AllocError>
    ensures { OnOk result (text.new ≡ text.old ++ closing_note cause) }
{
    text.word(b"zvt: the end of day")?;
    say_why(text, cause)?;
    text.word(b". The terminal may have closed the day or not: look at its journal\n")
}

/// Adds the name of a cause, and what it means.
fn say_why(text: &mut Text, cause: Cause) -> Result<(), AllocError>
    ensures { OnOk result (text.new ≡ text.old ++ why_unclear cause) }
{
    text.word(b" is unclear (")?;
    text.word(cause.name().as_bytes())?;
    text.word(b": ")?;
    text.word(cause.words().as_bytes())?;
    text.word(b")")
}

/// Adds the numbers that the terminal named.
fn say_heard(text: &mut Text, numbers: Numbers) -> Result<(), AllocError>
    ensures { OnOk result (text.new ≡ text.old ++ heard_text numbers.trace numbers.receipt) }
{
    match (numbers.trace, numbers.receipt) {
        (None, None) => text.word(b". The terminal named no trace or receipt number"),
        (None, Some(_)) => say_numbers_named(text, numbers),
        (Some(_), _) => say_numbers_named(text, numbers),
    }
}

/// Adds that the terminal named these numbers.
fn say_numbers_named(text: &mut Text, numbers: Numbers) -> Result<(), AllocError>
    ensures { OnOk result (text.new ≡ text.old ++
        (codes ". The terminal named" ++ named_text numbers.trace numbers.receipt)) }
{
    text.word(b". The terminal named")?;
    say_named(text, numbers)
}

/// Adds the numbers that the terminal named for a payment, each after a space.
pub(crate) fn say_named(text: &mut Text, numbers: Numbers) -> Result<(), AllocError>
    ensures { OnOk result (text.new ≡ text.old ++ named_text numbers.trace numbers.receipt) }
{
    match (numbers.trace, numbers.receipt) {
        (None, None) => Ok(()),
        (None, Some(receipt)) => {
            text.word(b" receipt ")?;
            say_receipt(text, receipt)
        }
        (Some(trace), receipt) => {
            text.push(b' ')?;
            zvt_text::numbers(text, trace, receipt)
        }
    }
}

/// Adds a receipt number in four digits.
fn say_receipt(text: &mut Text, receipt: [u8; 2]) -> Result<(), AllocError>
    ensures { OnOk result (text.new ≡ text.old ++ encode_upper receipt) }
{
    zvt_text::hexadecimal(text, receipt.as_slice())
}
