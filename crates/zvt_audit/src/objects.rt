//! The books of a trace as JSON objects, one per line.
ghost use Rattle.std.specs.Prelude.{◌≡◌, ◌++◌, OnOk};
ghost use Rattle.std.specs.List.{flat_map};
ghost use Rattle.zvt_text.specs.Meanings.{command_name};
ghost use Rattle.hex.specs.Hex.{encode_upper};
ghost use Rattle.json.specs.Print.{escape};
ghost use Rattle.zvt_text.specs.Writing.{Adds};
ghost use Rattle.zvt_till.specs.Judging.{books_value, row_value};
ghost use Rattle.zvt_audit.specs.Ends.{lines_of};
ghost use Rattle.zvt_audit.specs.Json.{booked_text, books_json, currency_part, line_part, receipt_part, summary_text};
ghost use Rattle.zvt_audit.specs.Json.{amount_part, name_part, trace_of, trace_part, unclear_text, unfollowed_text};

use crate::booked::total;
use crate::ends::Ends;
use crate::unfollowed::{Approval, UnfollowedOrder};
use std::alloc::AllocError;
use zvt_bcd::{Amount, Currency};
use zvt_text::{Text, command_name};
use zvt_till::{Booked, Books, Cause};
use zvt_trace::Tally;

/// Writes one object per completed payment, then one per unclear payment, then one per order that is not followed, and
/// a last one for the whole trace.
pub(crate) fn write(
    text: &mut Text,
    tally: Tally,
    currency: Option<Currency>,
    ends: &Ends,
    unfollowed: &[UnfollowedOrder],
    books: &Books,
) -> Result<(), AllocError>
    ensures { OnOk result (text.new ≡ text.old ++ books_json tally currency (lines_of ends.now)
        unfollowed.now (books_value books.now)) }
{
    for (at, row) in books.booked.iter().enumerate() {
        booked_row(text, row, ends.booked.get(at).copied())?;
    }
    for (at, row) in books.unclear.iter().enumerate() {
        unclear_row(text, row, ends.unclear.get(at).copied())?;
    }
    unfollowed_rows(text, unfollowed)?;
    summary(text, tally, currency, total(books.booked.as_slice()))
}

/// Writes the object of a completed payment.
fn booked_row(text: &mut Text, row: &Booked, line: Option<u64>) -> Result<(), AllocError>
    ensures { OnOk result (text.new ≡ text.old ++ booked_text (row_value row.now) line) }
{
    text.word(b"{\"booked\":{\"amount\":")?;
    text.number(row.amount.get())?;
    ended_at(text, line)?;
    receipt(text, row.receipt)?;
    text.word(b",\"trace\":")?;
    text.number(row.trace.get())?;
    text.word(b"}}\n")
}

/// Adds the line at which the payment ended, if it has.
fn ended_at(text: &mut Text, line: Option<u64>) -> Result<(), AllocError>
    ensures { OnOk result (text.new ≡ text.old ++ line_part line) }
{
    let Some(number) = line else {
        return Ok(());
    };
    text.word(b",\"line\":")?;
    text.number(number)
}

/// Adds the receipt number, if there is one.
fn receipt(text: &mut Text, receipt: Option<[u8; 2]>) -> Result<(), AllocError>
    ensures { OnOk result (text.new ≡ text.old ++ receipt_part receipt) }
{
    let Some(number) = receipt else {
        return Ok(());
    };
    text.word(b",\"receipt\":\"")?;
    digits(text, number.as_slice())?;
    text.push(b'"')
}

/// Adds bytes in hexadecimal, which needs no escapes.
fn digits(text: &mut Text, bytes: &[u8]) -> Result<(), AllocError>
    ensures { Adds result text.old text.new (escape (encode_upper bytes.now)) }
{
    zvt_text::hexadecimal(text, bytes)
}

/// Writes the object of an unclear payment.
fn unclear_row(text: &mut Text, row: &(Amount, Cause), line: Option<u64>) -> Result<(), AllocError>
    ensures { OnOk result (text.new ≡ text.old ++ unclear_text row.now line) }
{
    let (amount, cause) = row;
    text.word(b"{\"unclear\":{\"amount\":")?;
    text.number(amount.get())?;
    text.word(b",\"cause\":\"")?;
    text.word(cause.name().as_bytes())?;
    text.push(b'"')?;
    ended_at(text, line)?;
    text.word(b"}}\n")
}

/// Writes one object per order that is not followed.
fn unfollowed_rows(text: &mut Text, orders: &[UnfollowedOrder]) -> Result<(), AllocError>
    ensures { OnOk result (text.new ≡ text.old ++ flat_map unfollowed_text orders.now) }
{
    for order in orders {
        unfollowed_row(text, order)?;
    }
    Ok(())
}

/// Writes the object of an order that is not followed.
fn unfollowed_row(text: &mut Text, order: &UnfollowedOrder) -> Result<(), AllocError>
    ensures { OnOk result (text.new ≡ text.old ++ unfollowed_text order.now) }
{
    text.word(b"{\"unfollowed\":{")?;
    approved_amount(text, order.approved)?;
    text.word(b"\"control\":\"")?;
    digits(text, &[order.high, order.low])?;
    text.word(b"\",\"line\":")?;
    text.number(order.line)?;
    name(text, order.high, order.low)?;
    approved_trace(text, order.approved)?;
    text.word(b"}}\n")
}

/// Adds the amount that the terminal approved, if it did.
fn approved_amount(text: &mut Text, approved: Option<Approval>) -> Result<(), AllocError>
    ensures { OnOk result (text.new ≡ text.old ++ amount_part approved) }
{
    let Some(approval) = approved else {
        return Ok(());
    };
    text.word(b"\"approved\":")?;
    text.number(approval.amount.get())?;
    text.push(b',')
}

/// Adds the trace number of the approval, if it has one.
fn approved_trace(text: &mut Text, approved: Option<Approval>) -> Result<(), AllocError>
    ensures { OnOk result (text.new ≡ text.old ++ trace_part (trace_of approved)) }
{
    let Some(approval) = approved else {
        return Ok(());
    };
    let Some(trace) = approval.trace else {
        return Ok(());
    };
    text.word(b",\"trace\":")?;
    text.number(trace.get())
}

/// Adds the name of the command with these control bytes, if it has one.
fn name(text: &mut Text, high: u8, low: u8) -> Result<(), AllocError>
    ensures { OnOk result (text.new ≡ text.old ++ name_part (command_name high low)) }
{
    let Some(name) = command_name(high, low) else {
        return Ok(());
    };
    text.word(b",\"name\":\"")?;
    text.word(name.as_bytes())?;
    text.push(b'"')
}

/// Writes the object of the whole trace.
fn summary(
    text: &mut Text,
    tally: Tally,
    currency: Option<Currency>,
    total: u128,
) -> Result<(), AllocError>
    ensures { OnOk result (text.new ≡ text.old ++ summary_text tally currency total) }
{
    text.word(b"{\"bad\":")?;
    text.number(tally.bad)?;
    currency_member(text, currency)?;
    text.word(b",\"messages\":")?;
    text.number(tally.messages)?;
    text.word(b",\"total\":")?;
    text.number(total)?;
    text.word(b"}\n")
}

/// Adds the currency, if the trace has one.
fn currency_member(text: &mut Text, currency: Option<Currency>) -> Result<(), AllocError>
    ensures { OnOk result (text.new ≡ text.old ++ currency_part currency) }
{
    let Some(currency) = currency else {
        return Ok(());
    };
    text.word(b",\"currency\":\"")?;
    zvt_text::currency_digits(text, currency)?;
    text.push(b'"')
}
