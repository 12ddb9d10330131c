//! What the asks of a book have settled: a line for each settlement, as text and as JSON.
ghost use Rattle.std.specs.Prelude.{◌≡◌, ◌++◌, OnOk};
ghost use Rattle.serde_json.specs.Written.{compact_text};
ghost use Rattle.zvt_json.specs.Strings.{line_text};
ghost use Rattle.zvt_runs.specs.Settlements.{counted, paid_json, settled_json, settled_lines, settled_value};
ghost use Rattle.zvt_runs.specs.Settlements.{settled_words, settlement_line, settlement_text, settlement_value};

use crate::book_objects::{say_receipt, say_trace};
use crate::notes::say_named;
use std::alloc::AllocError;
use zvt_bcd::Trace;
use zvt_settle::Settlement;
use zvt_text::{Form, Text};
use zvt_till::Numbers;

/// Adds a line for each settlement in this form, in the order of the answers.
pub(crate) fn say_settlements(
    text: &mut Text,
    form: Form,
    settled: &[Settlement],
) -> Result<(), AllocError>
    ensures { OnOk result (text.new ≡ text.old ++ settled_lines form settled.now) }
{
    for settlement in settled {
        say_settlement(text, form, settlement)?;
    }
    Ok(())
}

/// Adds the line of a settlement in this form.
fn say_settlement(text: &mut Text, form: Form, settlement: &Settlement) -> Result<(), AllocError>
    ensures { OnOk result (text.new ≡ text.old ++ settlement_line form settlement.now) }
{
    match form {
        Form::Text => say_settlement_text(text, settlement),
        Form::Json => say_settlement_object(text, settlement),
    }
}

/// Adds the text of a settlement.
fn say_settlement_text(text: &mut Text, settlement: &Settlement) -> Result<(), AllocError>
    ensures { OnOk result (text.new ≡ text.old ++ settlement_text settlement.now) }
{
    settled_words(text, settlement)?;
    text.push(b'\n')
}

/// Adds a settlement in words, such as `settled unclear 1 Paid trace 000002 receipt 0002` or
/// `settled booked 3 Reversed`.
pub(crate) fn settled_words(text: &mut Text, settlement: &Settlement) -> Result<(), AllocError>
    ensures { OnOk result (text.new ≡ text.old ++ settled_words settlement.now) }
{
    match *settlement {
        Settlement::Paid(row, trace, receipt) => {
            say_counted(text, b"settled unclear ", row, b" Paid")?;
            let trace = Some(trace);
            say_named(text, Numbers { trace, receipt })
        }
        Settlement::NotPaid(row) => say_counted(text, b"settled unclear ", row, b" NotPaid"),
        Settlement::Reversed(entry) => say_counted(text, b"settled booked ", entry, b" Reversed"),
        Settlement::NotReversed(entry) => {
            say_counted(text, b"settled booked ", entry, b" NotReversed")
        }
    }
}

/// Adds words, the number of the row at this index, and more words. Numbers count from 1.
pub(crate) fn say_counted(
    text: &mut Text,
    words: &[u8],
    index: usize,
    more: &[u8],
) -> Result<(), AllocError>
    ensures { OnOk result (text.new ≡ text.old ++ counted words.now index more.now) }
{
    text.word(words)?;
    text.number(index as u128 + 1)?;
    text.word(more)
}

/// Adds the object of a settlement as a line.
fn say_settlement_object(text: &mut Text, settlement: &Settlement) -> Result<(), AllocError>
    ensures { OnOk result (text.new ≡ text.old ++ line_text (settlement_value settlement.now)) }
{
    text.word(b"{\"settled\":")?;
    say_settled(text, settlement)?;
    text.word(b"}\n")
}

/// Adds a settlement as a JSON object.
pub(crate) fn say_settled(text: &mut Text, settlement: &Settlement) -> Result<(), AllocError>
    ensures { OnOk result (text.new ≡ text.old ++ compact_text (settled_value settlement.now)) }
{
    write_settled(text, settlement)
}

/// Writes a settlement as a JSON object, part by part.
fn write_settled(text: &mut Text, settlement: &Settlement) -> Result<(), AllocError>
    ensures { OnOk result (text.new ≡ text.old ++ settled_json settlement.now) }
{
    match *settlement {
        Settlement::Paid(row, trace, receipt) => write_paid(text, row, trace, receipt),
        Settlement::NotPaid(row) => {
            say_counted(text, b"{\"name\":\"NotPaid\",\"unclear\":", row, b"}")
        }
        Settlement::Reversed(entry) => {
            say_counted(text, b"{\"booked\":", entry, b",\"name\":\"Reversed\"}")
        }
        Settlement::NotReversed(entry) => {
            say_counted(text, b"{\"booked\":", entry, b",\"name\":\"NotReversed\"}")
        }
    }
}

/// Writes a payment that was settled as paid, part by part.
#[tactic(auto, unfolding(crate::specs::Settlements::paid_json))]
fn write_paid(
    text: &mut Text,
    row: usize,
    trace: Trace,
    receipt: Option<[u8; 2]>,
) -> Result<(), AllocError>
    ensures { OnOk result (text.new ≡ text.old ++ paid_json row trace receipt) }
{
    text.word(b"{\"name\":\"Paid\"")?;
    say_receipt(text, receipt)?;
    say_trace(text, Some(trace))?;
    say_counted(text, b",\"unclear\":", row, b"}")
}
