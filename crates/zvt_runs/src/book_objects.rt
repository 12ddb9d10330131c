//! A till's book as JSON objects, one per line.
ghost use Rattle.std.specs.Prelude.{◌≡◌, ◌∷◌, ◌++◌, OnOk, option_map};
ghost use Rattle.hex.specs.Hex.{encode_upper};
ghost use Rattle.json.specs.Print.{escape};
ghost use Rattle.zvt_json.specs.Strings.{line_text};
ghost use Rattle.zvt_text.specs.Writing.{Adds};
ghost use Rattle.zvt_runs.specs.BookLines.{book_json};
ghost use Rattle.zvt_runs.specs.BookObjects.{amount_part, cause_part, currency_part, entries_json};
ghost use Rattle.zvt_runs.specs.BookObjects.{entry_json, entry_value, heard_part, moment_part, number_part};
ghost use Rattle.zvt_runs.specs.BookObjects.{receipt_part, reference_part, reversals_part, reversed_part, sum_json};
ghost use Rattle.zvt_runs.specs.BookObjects.{sum_value, taken_back_part, time_part, trace_part, unclear_json};
ghost use Rattle.zvt_runs.specs.BookObjects.{unclear_reversal_part, unclear_value, unclears_json, word_part};

use crate::books::{heard_at, note_at};
use crate::quoted::say_escaped;
use crate::settled_sum::say_settled_part;
use std::alloc::AllocError;
use zvt_bcd::{Amount, Currency, Trace};
use zvt_kept::{Note, Recovered};
use zvt_text::{Form, Text};
use zvt_till::{Cause, Doubt, Entry, Numbers};

/// Adds an object for each entry with its number and the state of its reversals, one for each unclear payment with the
/// numbers that the terminal named, and one for each settlement. The last object is the sum of the entries that were
/// not reversed. The objects of payments contain their notes.
pub(crate) fn say_objects(text: &mut Text, recovered: &Recovered) -> Result<(), AllocError>
    ensures { OnOk result (text.new ≡ text.old ++ book_json recovered.now) }
{
    let till = recovered.till.till();
    let currency = till.currency();
    say_entries(text, currency, till.book(), recovered.booked.as_slice())?;
    say_unclear(
        text,
        currency,
        till.unclear(),
        till.heard(),
        recovered.unclear.as_slice(),
    )?;
    say_settled_part(text, Form::Json, &recovered.till)?;
    say_sum(text, currency, till.total())
}

/// Adds the lines of these entries, numbered from 1, each with its note.
fn say_entries(
    text: &mut Text,
    currency: Currency,
    book: &[Entry],
    notes: &[Note],
) -> Result<(), AllocError>
    ensures { OnOk result (text.new ≡ text.old ++ entries_json currency book.now notes.now) }
{
    for (at, entry) in book.iter().enumerate() {
        say_entry(text, currency, at + 1, entry, note_at(notes, at))?;
    }
    Ok(())
}

/// Adds the lines of these unclear payments, each with the numbers that the terminal named and with its note.
fn say_unclear(
    text: &mut Text,
    currency: Currency,
    unclear: &[(Amount, Cause)],
    heard: &[Numbers],
    notes: &[Note],
) -> Result<(), AllocError>
    ensures { OnOk result (text.new ≡ text.old ++ unclears_json currency unclear.now heard.now notes.now) }
{
    for (at, row) in unclear.iter().enumerate() {
        say_unclear_row(text, currency, row, heard_at(heard, at), note_at(notes, at))?;
    }
    Ok(())
}

/// Adds the line of the entry with this number.
#[tactic(auto, using(crate::proofs::BookObjects::entry_said))]
fn say_entry(
    text: &mut Text,
    currency: Currency,
    number: usize,
    entry: &Entry,
    note: Option<&Note>,
) -> Result<(), AllocError>
    ensures { OnOk result (text.new ≡ text.old ++ line_text (entry_value currency number entry.now
        (option_map (λ words. words.now) note.entry))) }
{
    write_entry(text, currency, number, entry, note)
}

/// Adds the line of an unclear payment.
#[tactic(auto, using(crate::proofs::BookObjects::unclear_said))]
fn say_unclear_row(
    text: &mut Text,
    currency: Currency,
    row: &(Amount, Cause),
    heard: Option<Numbers>,
    note: Option<&Note>,
) -> Result<(), AllocError>
    ensures { OnOk result (text.new ≡ text.old ++ line_text (unclear_value currency row.now heard
        (option_map (λ words. words.now) note.entry))) }
{
    write_unclear(text, currency, row, heard, note)
}

/// Adds the line of the sum.
#[tactic(auto, using(crate::proofs::BookObjects::sum_said))]
fn say_sum(text: &mut Text, currency: Currency, total: u64) -> Result<(), AllocError>
    ensures { OnOk result (text.new ≡ text.old ++ line_text (sum_value currency total)) }
{
    write_sum(text, currency, total)
}

/// Writes the line of an entry, part by part.
#[tactic(auto, unfolding(crate::specs::BookObjects::entry_json))]
fn write_entry(
    text: &mut Text,
    currency: Currency,
    number: usize,
    entry: &Entry,
    note: Option<&Note>,
) -> Result<(), AllocError>
    ensures { OnOk result (text.new ≡ text.old ++ entry_json currency number entry.now
        (option_map (λ words. words.now) note.entry)) }
{
    say_amount(text, b"{\"booked\":{\"amount\":", entry.amount)?;
    say_time(text, note)?;
    say_number(text, currency, number)?;
    say_receipt(text, entry.receipt)?;
    say_reference(text, note)?;
    say_reversals(text, entry.reversed, entry.doubt)?;
    say_trace(text, Some(entry.trace))?;
    text.word(b"}}\n")
}

/// Writes the start of a line of this kind, up to its amount.
fn say_amount(text: &mut Text, kind: &[u8], amount: Amount) -> Result<(), AllocError>
    ensures { OnOk result (text.new ≡ text.old ++ amount_part kind.now amount) }
{
    text.word(kind)?;
    text.number(amount.get())
}

/// Writes the time of the order, if its record has one.
fn say_time(text: &mut Text, note: Option<&Note>) -> Result<(), AllocError>
    ensures { OnOk result (text.new ≡ text.old ++ time_part (option_map (λ words. words.now) note.entry)) }
{
    match note {
        Some(note) => say_moment(text, note.at()),
        None => Ok(()),
    }
}

/// Writes a time, if there is one.
fn say_moment(text: &mut Text, moment: Option<&[u8]>) -> Result<(), AllocError>
    ensures { OnOk result (text.new ≡ text.old ++ moment_part (option_map (λ moment. moment.now) moment.entry)) }
{
    let Some(moment) = moment else {
        return Ok(());
    };
    text.word(b",\"at\":\"")?;
    say_escaped(text, moment)?;
    text.push(b'"')
}

/// Writes the reference of the order, if its record has one.
fn say_reference(text: &mut Text, note: Option<&Note>) -> Result<(), AllocError>
    ensures { OnOk result (text.new ≡ text.old ++ reference_part (option_map (λ words. words.now) note.entry)) }
{
    match note {
        Some(note) => say_word(text, note.reference()),
        None => Ok(()),
    }
}

/// Writes a reference, if there is one.
fn say_word(text: &mut Text, word: Option<&[u8]>) -> Result<(), AllocError>
    ensures { OnOk result (text.new ≡ text.old ++ word_part (option_map (λ word. word.now) word.entry)) }
{
    let Some(word) = word else {
        return Ok(());
    };
    text.word(b",\"ref\":\"")?;
    say_escaped(text, word)?;
    text.push(b'"')
}

/// Writes the currency and the number of an entry.
fn say_number(text: &mut Text, currency: Currency, number: usize) -> Result<(), AllocError>
    ensures { OnOk result (text.new ≡ text.old ++ number_part currency number) }
{
    text.push(b',')?;
    say_currency(text, currency)?;
    text.word(b",\"number\":")?;
    text.number(number)
}

/// Writes the currency of a book.
fn say_currency(text: &mut Text, currency: Currency) -> Result<(), AllocError>
    ensures { OnOk result (text.new ≡ text.old ++ currency_part currency) }
{
    text.word(b"\"currency\":\"")?;
    zvt_text::currency_digits(text, currency)?;
    text.push(b'"')
}

/// Writes the receipt number, if the payment has one.
pub(crate) fn say_receipt(text: &mut Text, receipt: Option<[u8; 2]>) -> Result<(), AllocError>
    ensures { OnOk result (text.new ≡ text.old ++ receipt_part receipt) }
{
    let Some(number) = receipt else {
        return Ok(());
    };
    text.word(b",\"receipt\":\"")?;
    say_digits(text, number.as_slice())?;
    text.push(b'"')
}

/// Writes bytes in hexadecimal. JSON escapes none of the digits.
fn say_digits(text: &mut Text, bytes: &[u8]) -> Result<(), AllocError>
    ensures { Adds result text.old text.new (escape (encode_upper bytes.now)) }
{
    zvt_text::hexadecimal(text, bytes)
}

/// Writes the state of an entry's reversals.
fn say_reversals(text: &mut Text, reversed: bool, doubt: Doubt) -> Result<(), AllocError>
    ensures { OnOk result (text.new ≡ text.old ++ reversals_part reversed doubt) }
{
    say_unclear_reversal(text, doubt)?;
    say_reversed(text, reversed)?;
    say_taken_back(text, doubt)
}

/// Writes the cause of an entry's last reversal, if that is unclear.
fn say_unclear_reversal(text: &mut Text, doubt: Doubt) -> Result<(), AllocError>
    ensures { OnOk result (text.new ≡ text.old ++ unclear_reversal_part doubt) }
{
    let Doubt::Unclear(cause) = doubt else {
        return Ok(());
    };
    text.word(b",\"reversal_unclear\":\"")?;
    text.word(cause.name().as_bytes())?;
    text.push(b'"')
}

/// Writes whether a completed reversal took the payment back.
fn say_reversed(text: &mut Text, reversed: bool) -> Result<(), AllocError>
    ensures { OnOk result (text.new ≡ text.old ++ reversed_part reversed) }
{
    if reversed {
        text.word(b",\"reversed\":true")?;
    }
    Ok(())
}

/// Writes that the terminal had taken the payment back before, if it said so.
fn say_taken_back(text: &mut Text, doubt: Doubt) -> Result<(), AllocError>
    ensures { OnOk result (text.new ≡ text.old ++ taken_back_part doubt) }
{
    match doubt {
        Doubt::No | Doubt::Unclear(_) => Ok(()),
        Doubt::TakenBack => text.word(b",\"taken_back\":true"),
    }
}

/// Writes the trace number, if the terminal named one.
pub(crate) fn say_trace(text: &mut Text, trace: Option<Trace>) -> Result<(), AllocError>
    ensures { OnOk result (text.new ≡ text.old ++ trace_part trace) }
{
    let Some(number) = trace else {
        return Ok(());
    };
    text.word(b",\"trace\":")?;
    text.number(number.get())
}

/// Writes the line of an unclear payment, part by part.
#[tactic(auto, unfolding(crate::specs::BookObjects::unclear_json))]
fn write_unclear(
    text: &mut Text,
    currency: Currency,
    row: &(Amount, Cause),
    heard: Option<Numbers>,
    note: Option<&Note>,
) -> Result<(), AllocError>
    ensures { OnOk result (text.new ≡ text.old ++ unclear_json currency row.now heard
        (option_map (λ words. words.now) note.entry)) }
{
    let (amount, cause) = row;
    say_amount(text, b"{\"unclear\":{\"amount\":", *amount)?;
    say_time(text, note)?;
    say_cause(text, *cause, currency)?;
    say_heard(text, heard, note)?;
    text.word(b"}}\n")
}

/// Writes why a payment is unclear, and the currency.
fn say_cause(text: &mut Text, cause: Cause, currency: Currency) -> Result<(), AllocError>
    ensures { OnOk result (text.new ≡ text.old ++ cause_part cause currency) }
{
    text.word(b",\"cause\":\"")?;
    text.word(cause.name().as_bytes())?;
    text.word(b"\",")?;
    say_currency(text, currency)
}

/// Writes the numbers that the terminal named for an unclear payment, if any, and the reference of its order.
fn say_heard(text: &mut Text, heard: Option<Numbers>, note: Option<&Note>) -> Result<(), AllocError>
    ensures { OnOk result (text.new ≡ text.old ++ heard_part heard (option_map (λ words. words.now) note.entry)) }
{
    let Some(numbers) = heard else {
        return say_reference(text, note);
    };
    say_receipt(text, numbers.receipt)?;
    say_reference(text, note)?;
    say_trace(text, numbers.trace)
}

/// Writes the line of the sum, part by part.
#[tactic(auto, unfolding(crate::specs::BookObjects::sum_json))]
fn write_sum(text: &mut Text, currency: Currency, total: u64) -> Result<(), AllocError>
    ensures { OnOk result (text.new ≡ text.old ++ sum_json currency total) }
{
    text.push(b'{')?;
    say_currency(text, currency)?;
    text.word(b",\"total\":")?;
    text.number(total)?;
    text.word(b"}\n")
}
