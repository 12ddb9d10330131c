//! The sum of the unclear payments that were settled as paid.
ghost use Rattle.std.specs.Prelude.{◌≡◌, ◌≤◌, ◌++◌, OnOk, slice_get};
ghost use Rattle.zvt_till.specs.Outcomes.{trace_used};
ghost use Rattle.zvt_runs.specs.SettledSum.{amount_of, settled_part, settled_sum, settled_total, total_line, worth};

use crate::settlements::say_settlements;
use std::alloc::AllocError;
use zvt_bcd::{Amount, Trace};
use zvt_settle::{Settlement, SettlingTill};
use zvt_text::{Form, Text};
use zvt_till::{Cause, Entry};

/// Adds a line in this form for each settlement of this till, in the order of the answers, and a line for the sum of
/// what was settled as paid, unless it is 0.
pub(crate) fn say_settled_part(
    text: &mut Text,
    form: Form,
    till: &SettlingTill,
) -> Result<(), AllocError>
    ensures { OnOk result (text.new ≡ text.old ++ settled_part form till.now.till.state.book
        till.now.till.state.unclear till.now.settled.items) }
{
    let inside = till.till();
    let total = settled_total(inside.book(), inside.unclear(), till.settled());
    say_settlements(text, form, till.settled())?;
    say_sum(text, form, total)
}

/// Adds the line of this sum in this form, unless it is 0.
fn say_sum(text: &mut Text, form: Form, total: u128) -> Result<(), AllocError>
    ensures { OnOk result (text.new ≡ text.old ++ settled_sum form total) }
{
    if total == 0 {
        return Ok(());
    }
    say_total_line(text, form, total)
}

/// Adds the line of this sum in this form.
fn say_total_line(text: &mut Text, form: Form, total: u128) -> Result<(), AllocError>
    ensures { OnOk result (text.new ≡ text.old ++ total_line form total) }
{
    match form {
        Form::Text => say_text(text, total),
        Form::Json => say_object(text, total),
    }
}

/// Adds the text of this sum.
fn say_text(text: &mut Text, total: u128) -> Result<(), AllocError>
    ensures { OnOk result (text.new ≡ text.old ++ total_line Form.Text total) }
{
    text.word(b"settled as paid ")?;
    text.number(total)?;
    text.push(b'\n')
}

/// Adds the object of this sum.
fn say_object(text: &mut Text, total: u128) -> Result<(), AllocError>
    ensures { OnOk result (text.new ≡ text.old ++ total_line Form.Json total) }
{
    text.word(b"{\"settled_total\":")?;
    text.number(total)?;
    text.word(b"}\n")
}

/// Returns the sum of the payments that were settled as paid, except those whose trace number an entry has.
fn settled_total(book: &[Entry], unclear: &[(Amount, Cause)], settled: &[Settlement]) -> u128
    ensures { result ≡ settled_total book.now unclear.now settled.now }
{
    let mut total = 0;
    for settlement in settled {
        total += u128::from(worth(book, unclear, settlement));
    }
    total
}

/// Returns the amount that a settlement adds.
fn worth(book: &[Entry], unclear: &[(Amount, Cause)], settlement: &Settlement) -> u64
    ensures value { result ≡ worth book.now unclear.now settlement.now }
    ensures most { result ≤ 999999999999 }
{
    match *settlement {
        Settlement::Paid(row, trace, _) => {
            if has_trace(book, trace) {
                return 0;
            }
            amount_at(unclear, row)
        }
        Settlement::NotPaid(_) | Settlement::Reversed(_) | Settlement::NotReversed(_) => 0,
    }
}

/// Returns the amount of the unclear payment at this index, or 0 if there is none.
fn amount_at(unclear: &[(Amount, Cause)], row: usize) -> u64
    ensures value { result ≡ amount_of (slice_get unclear.now row) }
    ensures most { result ≤ 999999999999 }
{
    match unclear.get(row) {
        Some((amount, _)) => amount.get(),
        None => 0,
    }
}

/// Returns whether an entry of the book has this trace number.
fn has_trace(book: &[Entry], trace: Trace) -> bool
    ensures { result ≡ trace_used trace book.now }
{
    book.iter().any(|entry| entry.trace == trace)
}
