//! Reports of the ledger rows that a till caused.
ghost use Rattle.std.specs.Prelude.{◌≡◌, ◌++◌, IfOk, OnOk};
ghost use Rattle.serde_json.specs.View.{view};
ghost use Rattle.zvt_json.specs.Strings.{line_text};
ghost use Rattle.zvt_runs.specs.LedgerRows.{approved_text, approved_value, reversed_text, reversed_value, row_line};
ghost use Rattle.zvt_runs.specs.LedgerRows.{rows_text};

use crate::tcp::reports::line;
use serde_json::{Value, json};
use std::alloc::{AllocError, Global};
use zvt_term::Row;
use zvt_text::{Form, Text};

/// Adds a line in this form for each of these rows, which the ledger got from the till of this number.
pub(crate) fn say_rows(
    alloc: Global,
    text: &mut Text,
    form: Form,
    till: u64,
    rows: &[Row],
) -> Result<(), AllocError>
    ensures { OnOk result (text.new ≡ text.old ++ rows_text form till rows.now) }
{
    for row in rows {
        let line = row_line(alloc, form, till, row)?;
        text.word(line.bytes())?;
    }
    Ok(())
}

/// Returns the line of a row in this form.
fn row_line(alloc: Global, form: Form, till: u64, row: &Row) -> Result<Text, AllocError>
    ensures { IfOk result (λ line. line ≡ row_line form till row.now.number row.now.amount row.now.reverses) }
{
    let amount = row.amount.get();
    match (form, row.reverses) {
        (Form::Text, None) => approved_words(alloc, row.number, amount),
        (Form::Text, Some(original)) => reversed_words(alloc, row.number, original, amount),
        (Form::Json, None) => approved_object(alloc, till, row.number, amount),
        (Form::Json, Some(original)) => {
            reversed_object(alloc, till, row.number, original, amount)
        }
    }
}

/// Returns the line of an approval as text.
fn approved_words(alloc: Global, number: u16, amount: u64) -> Result<Text, AllocError>
    ensures { IfOk result (λ line. line ≡ approved_text number amount) }
{
    let mut text = Text::new(alloc);
    text.word(b"zvt: approved ")?;
    text.number(amount)?;
    text.word(b" as number ")?;
    text.number(number)?;
    text.push(b'\n')?;
    Ok(text)
}

/// Returns the line of a reversed approval as text.
fn reversed_words(
    alloc: Global,
    number: u16,
    original: u16,
    amount: u64,
) -> Result<Text, AllocError>
    ensures { IfOk result (λ line. line ≡ reversed_text number original amount) }
{
    let mut text = Text::new(alloc);
    text.word(b"zvt: took back ")?;
    text.number(amount)?;
    text.word(b" of number ")?;
    text.number(original)?;
    text.word(b" as number ")?;
    text.number(number)?;
    text.push(b'\n')?;
    Ok(text)
}

/// Returns the JSON line of an approval.
fn approved_object(alloc: Global, till: u64, number: u16, amount: u64) -> Result<Text, AllocError>
    ensures { IfOk result (λ line. line ≡ line_text (approved_value till number amount)) }
{
    let value = approved_value(alloc, till, number, amount)?;
    line(alloc, value.to_string(alloc)?.as_str())
}

/// Returns the JSON value of an approval.
fn approved_value(alloc: Global, till: u64, number: u16, amount: u64) -> Result<Value, AllocError>
    ensures { IfOk result (λ value. view value ≡ approved_value till number amount) }
{
    json!(in alloc; {"approved": amount, "number": number, "till": till})
}

/// Returns the JSON line of a reversed approval.
fn reversed_object(
    alloc: Global,
    till: u64,
    number: u16,
    original: u16,
    amount: u64,
) -> Result<Text, AllocError>
    ensures { IfOk result (λ line. line ≡ line_text (reversed_value till number original amount)) }
{
    let value = reversed_value(alloc, till, number, original, amount)?;
    line(alloc, value.to_string(alloc)?.as_str())
}

/// Returns the JSON value of a reversed approval.
fn reversed_value(
    alloc: Global,
    till: u64,
    number: u16,
    original: u16,
    amount: u64,
) -> Result<Value, AllocError>
    ensures { IfOk result (λ value. view value ≡ reversed_value till number original amount) }
{
    json!(in alloc; {"number": number, "original": original, "reversed": amount, "till": till})
}
