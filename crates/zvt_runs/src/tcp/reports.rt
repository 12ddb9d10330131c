//! Reports of a simulated terminal.
ghost use Rattle.std.specs.Prelude.{◌≡◌, [], ◌∷◌, ◌++◌, Some, IfOk, OnOk, drop};
ghost use Rattle.serde_json.specs.View.{view};
ghost use Rattle.zvt_json.specs.Strings.{line_text};
ghost use Rattle.zvt_runs.specs.Reporting.{Reports};
ghost use Rattle.zvt_runs.specs.TcpReporting.{IsReport, SaysGone, ReportsGone, approvals, failed_value, gone_value};
ghost use Rattle.zvt_runs.specs.TcpReporting.{ledger_text};

use crate::tcp::rows::say_rows;
use serde_json::{Value, json};
use std::alloc::{AllocError, Global};
use std::net::TcpListener;
use zvt_io::Sink;
use zvt_stream::LineFault;
use zvt_term::{Row, Terminal};
use zvt_text::{Form, Text};

/// Reports in this form the address on which the terminal listens. If the device fails, this is not a fault of the
/// service.
pub(crate) fn report_address<W: Sink>(
    alloc: Global,
    form: Form,
    listener: &TcpListener,
    report: &mut W,
) -> Result<(), AllocError> {
    let Ok(address) = listener.local_addr() else {
        return Ok(());
    };
    let text = match form {
        Form::Text => format!(in alloc; "zvt: a terminal listens at {address}\n")?,
        Form::Json => format!(in alloc; "{{\"listening\":\"{address}\"}}\n")?,
    };
    let _ = report.write_all(text.as_bytes());
    Ok(())
}

/// A till that disconnected.
#[derive(Clone, Copy)]
pub(crate) struct GoneTill {
    /// Its number, counted from 1.
    pub(crate) number: u64,
    /// How its connection failed, if it did.
    pub(crate) broke: Option<LineFault>,
    /// The number of rows in the ledger before the till connected.
    pub(crate) rows_before: usize,
}

/// Reports in this form the rows that the ledger got from a till, and then that the till disconnected, how its
/// connection failed, if it did, and the number of approvals in the terminal's ledger. If the device fails, this is not
/// a fault of the service.
pub(crate) fn report_till<W: Sink>(
    alloc: Global,
    form: Form,
    till: &GoneTill,
    terminal: &Terminal,
    report: &mut W,
) -> Result<(), AllocError>
    ensures { OnOk result (ReportsGone form till.now.number till.now.broke till.now.rows_before terminal.now.ledger
        (W.written report.old) (W.written report.new) (W.failures report.old) (W.failures report.new)) }
{
    let ledger = terminal.ledger();
    let mut text = Text::new(alloc);
    say_rows(
        alloc,
        &mut text,
        form,
        till.number,
        after(ledger, till.rows_before),
    )?;
    let gone = gone(alloc, form, till.number, till.broke, approvals(ledger))?;
    text.word(gone.bytes())?;
    report_text(&text, report);
    Ok(())
}

/// Returns the rows after the first `count` rows.
fn after(rows: &[Row], count: usize) -> &[Row]
    ensures { result.now ≡ drop count rows.now }
{
    if count < rows.len() {
        &rows[count..]
    } else {
        &[]
    }
}

/// Returns the report in this form that a till disconnected.
fn gone(
    alloc: Global,
    form: Form,
    till: u64,
    broke: Option<LineFault>,
    approved: usize,
) -> Result<Text, AllocError>
    ensures { IfOk result (λ report. IsReport form till broke approved report) }
{
    match (form, broke) {
        (Form::Text, _) => gone_words(alloc, till, broke, approved),
        (Form::Json, None) => gone_object(alloc, till, approved),
        (Form::Json, Some(fault)) => failed_object(alloc, till, fault, approved),
    }
}

/// Returns the report as text that a till disconnected.
fn gone_words(
    alloc: Global,
    till: u64,
    broke: Option<LineFault>,
    approved: usize,
) -> Result<Text, AllocError>
    ensures { IfOk result (λ report. IsReport Form.Text till broke approved report) }
{
    let mut text = Text::new(alloc);
    say_gone(alloc, &mut text, till, broke)?;
    say_ledger(&mut text, approved)?;
    Ok(text)
}

/// Returns the JSON line of a till that disconnected without a fault.
fn gone_object(alloc: Global, till: u64, approved: usize) -> Result<Text, AllocError>
    ensures { IfOk result (λ report. report ≡ line_text (gone_value till approved)) }
{
    let value = gone_value(alloc, till, approved)?;
    line(alloc, value.to_string(alloc)?.as_str())
}

/// Returns the JSON value of a till that disconnected without a fault.
fn gone_value(alloc: Global, till: u64, approved: usize) -> Result<Value, AllocError>
    ensures { IfOk result (λ value. view value ≡ gone_value till approved) }
{
    json!(in alloc; {"approvals": approved, "till": till})
}

/// Returns the JSON line of a till whose connection failed.
fn failed_object(
    alloc: Global,
    till: u64,
    fault: LineFault,
    approved: usize,
) -> Result<Text, AllocError>
    ensures { IfOk result (λ report. IsReport Form.Json till (Some fault) approved report) }
{
    let why = format!(in alloc; "{fault}")?;
    let value = failed_value(alloc, till, why.as_str(), approved)?;
    line(alloc, value.to_string(alloc)?.as_str())
}

/// Returns the JSON value of a till whose connection failed, with the text of the fault.
fn failed_value(alloc: Global, till: u64, why: &str, approved: usize) -> Result<Value, AllocError>
    ensures { IfOk result (λ value. view value ≡ failed_value till approved why.now) }
{
    json!(in alloc; {"approvals": approved, "failed": why, "till": till})
}

/// Returns this text as a line.
pub(crate) fn line(alloc: Global, word: &str) -> Result<Text, AllocError>
    ensures { IfOk result (λ line. line ≡ word.now ++ 10 ∷ []) }
{
    let mut text = Text::new(alloc);
    text.word(word.as_bytes())?;
    text.push(b'\n')?;
    Ok(text)
}

/// Reports a text. If the device fails, this is not a fault.
fn report_text<W: Sink>(text: &Text, report: &mut W)
    ensures { Reports text.now (W.written report.old) (W.written report.new) (W.failures report.old)
        (W.failures report.new) }
{
    let _ = report.write_all(text.bytes());
}

/// Adds that the till of this number disconnected, and why its connection failed, if it did.
fn say_gone(
    alloc: Global,
    text: &mut Text,
    till: u64,
    broke: Option<LineFault>,
) -> Result<(), AllocError>
    ensures { OnOk result (SaysGone till broke text.old text.new) }
{
    match broke {
        None => {
            text.word(b"zvt: till ")?;
            text.number(till)?;
            text.word(b" disconnected")
        }
        Some(fault) => {
            text.word(b"zvt: connection of till ")?;
            text.number(till)?;
            text.word(b" failed: ")?;
            text.word(format!(in alloc; "{fault}")?.as_bytes())
        }
    }
}

/// Adds the number of approvals in a ledger.
fn say_ledger(text: &mut Text, approvals: usize) -> Result<(), AllocError>
    ensures { OnOk result (text.new ≡ text.old ++ ledger_text approvals) }
{
    text.word(b"; approvals in the ledger: ")?;
    text.number(approvals)?;
    text.push(b'\n')
}

/// Returns the number of rows that approve a payment.
fn approvals(rows: &[Row]) -> usize
    ensures { result ≡ approvals rows.now }
{
    rows.iter().filter(|row| row.reverses.is_none()).count()
}
