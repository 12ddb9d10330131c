//! A till's book as text.
ghost use Rattle.std.specs.Prelude.{◌≡◌, ◌<◌, ◌++◌, Err, IfErr, OnOk, option_map, slice_get};
ghost use Rattle.zvt_io.specs.Devices.{Writes};
ghost use Rattle.zvt_runs.specs.BookLines.{book_lines, book_text};
ghost use Rattle.zvt_runs.specs.Books.{booked_text, doubt_text, entries_text, entry_text, heard_words};
ghost use Rattle.zvt_runs.specs.Books.{noted_text};
ghost use Rattle.zvt_runs.specs.Books.{reversed_text, unclear_reversal_text, unclear_text, unclears_text};
ghost use Rattle.zvt_runs.specs.Runs.{AnswersText};

use crate::book_objects::say_objects;
use crate::fault::EndFault;
use crate::notes::say_named;
use crate::settled_sum::say_settled_part;
use crate::steps::say_total;
use std::alloc::{AllocError, Global};
use zvt_bcd::Amount;
use zvt_io::Sink;
use zvt_kept::{Note, Recovered};
use zvt_text::{Form, Text};
use zvt_till::{Cause, Doubt, Entry, Numbers};

/// Writes a till's book: one line per entry, per unclear payment and per settlement, the sum of what was settled as
/// paid if there is any, and the total of the entries that were not reversed. The line of an entry has the state of its
/// reversals, and the line of an unclear payment the numbers that the terminal named. The line of a payment ends with
/// the time and the reference of its order, if its record has them.
///
/// Fails with `Memory` if an allocation fails, and has then written nothing. Fails with `Write` if the writer fails,
/// and has then written some prefix of the text.
pub fn write_book<W: Sink>(
    alloc: Global,
    form: Form,
    recovered: &Recovered,
    writer: &mut W,
) -> Result<(), EndFault>
    ensures text { AnswersText (book_lines form recovered.now) (W.written writer.old) (W.written writer.new) result }
    ensures write { result ≡ Err EndFault.Write → W.failures writer.old < W.failures writer.new }
{
    let mut text = Text::new(alloc);
    say_lines(&mut text, form, recovered)?;
    writer.write_all(text.bytes())?;
    Ok(())
}

/// Writes the records of a book unchanged. Their text is a trace. Fails with `Write` if the writer fails.
pub fn write_records<W: Sink>(records: &[u8], writer: &mut W) -> Result<(), EndFault>
    ensures text { Writes (W.written writer.old) (W.written writer.new) result records.now }
    ensures fault { IfErr result (λ fault. fault ≡ EndFault.Write) }
    ensures write { result ≡ Err EndFault.Write → W.failures writer.old < W.failures writer.new }
{
    match writer.write_all(records) {
        Ok(()) => Ok(()),
        Err(_) => Err(EndFault::Write),
    }
}

/// Adds the lines of a book in this form.
fn say_lines(text: &mut Text, form: Form, recovered: &Recovered) -> Result<(), AllocError>
    ensures { OnOk result (text.new ≡ text.old ++ book_lines form recovered.now) }
{
    match form {
        Form::Text => say_book(text, recovered),
        Form::Json => say_objects(text, recovered),
    }
}

/// Adds the lines of a book as text.
fn say_book(text: &mut Text, recovered: &Recovered) -> Result<(), AllocError>
    ensures { OnOk result (text.new ≡ text.old ++ book_text recovered.now) }
{
    let till = recovered.till.till();
    say_entries(text, till.book(), recovered.booked.as_slice())?;
    say_unclear(
        text,
        till.unclear(),
        till.heard(),
        recovered.unclear.as_slice(),
    )?;
    say_settled_part(text, Form::Text, &recovered.till)?;
    say_total(text, till.total())
}

/// Adds the lines of these entries, each with its note.
fn say_entries(text: &mut Text, book: &[Entry], notes: &[Note]) -> Result<(), AllocError>
    ensures { OnOk result (text.new ≡ text.old ++ entries_text book.now notes.now) }
{
    for (at, entry) in book.iter().enumerate() {
        say_entry(text, entry, note_at(notes, at))?;
    }
    Ok(())
}

/// Adds the lines of these unclear payments, each with the numbers that the terminal named and with its note.
fn say_unclear(
    text: &mut Text,
    unclear: &[(Amount, Cause)],
    heard: &[Numbers],
    notes: &[Note],
) -> Result<(), AllocError>
    ensures { OnOk result (text.new ≡ text.old ++ unclears_text unclear.now heard.now notes.now) }
{
    for (at, row) in unclear.iter().enumerate() {
        say_unclear_row(text, row, heard_at(heard, at), note_at(notes, at))?;
    }
    Ok(())
}

/// Adds the line of an entry.
fn say_entry(text: &mut Text, entry: &Entry, note: Option<&Note>) -> Result<(), AllocError>
    ensures { OnOk result (text.new ≡ text.old ++ entry_text entry.now (option_map (λ words. words.now) note.entry)) }
{
    say_booked(text, entry)?;
    say_reversed(text, entry.reversed)?;
    say_doubt(text, entry.doubt)?;
    say_note(text, note)?;
    text.push(b'\n')
}

/// Adds the words of a note, if there is one.
fn say_note(text: &mut Text, note: Option<&Note>) -> Result<(), AllocError>
    ensures { OnOk result (text.new ≡ text.old ++ noted_text (option_map (λ words. words.now) note.entry)) }
{
    match note {
        Some(note) => text.word(note.words()),
        None => Ok(()),
    }
}

/// Adds the amount and the numbers of an entry.
fn say_booked(text: &mut Text, entry: &Entry) -> Result<(), AllocError>
    ensures { OnOk result (text.new ≡ text.old ++ booked_text entry.now) }
{
    text.word(b"booked ")?;
    text.number(entry.amount.get())?;
    text.push(b' ')?;
    zvt_text::numbers(text, entry.trace, entry.receipt)
}

/// Adds that an entry was reversed, if it was.
fn say_reversed(text: &mut Text, reversed: bool) -> Result<(), AllocError>
    ensures { OnOk result (text.new ≡ text.old ++ reversed_text reversed) }
{
    if reversed {
        text.word(b" reversed")?;
    }
    Ok(())
}

/// Adds what the reversals of an entry left open, if anything.
fn say_doubt(text: &mut Text, doubt: Doubt) -> Result<(), AllocError>
    ensures { OnOk result (text.new ≡ text.old ++ doubt_text doubt) }
{
    match doubt {
        Doubt::No => Ok(()),
        Doubt::Unclear(cause) => say_unclear_reversal(text, cause),
        Doubt::TakenBack => text.word(b" taken back"),
    }
}

/// Adds that the outcome of an entry's last reversal is unknown, with the cause.
fn say_unclear_reversal(text: &mut Text, cause: Cause) -> Result<(), AllocError>
    ensures { OnOk result (text.new ≡ text.old ++ unclear_reversal_text cause) }
{
    text.word(b" reversal unclear ")?;
    text.word(cause.name().as_bytes())
}

/// Adds the line of an unclear payment.
fn say_unclear_row(
    text: &mut Text,
    row: &(Amount, Cause),
    heard: Option<Numbers>,
    note: Option<&Note>,
) -> Result<(), AllocError>
    ensures { OnOk result (text.new ≡ text.old ++ unclear_text row.now heard
        (option_map (λ words. words.now) note.entry)) }
{
    let (amount, cause) = row;
    text.word(b"unclear ")?;
    text.number(amount.get())?;
    text.push(b' ')?;
    text.word(cause.name().as_bytes())?;
    say_heard(text, heard)?;
    say_note(text, note)?;
    text.push(b'\n')
}

/// Returns the numbers that the terminal named for the unclear payment at this index.
pub(crate) fn heard_at(heard: &[Numbers], at: usize) -> Option<Numbers>
    ensures { result ≡ slice_get heard.now at }
{
    match heard.get(at) {
        Some(numbers) => Some(*numbers),
        None => None,
    }
}

/// Returns the note of the payment at this index.
pub(crate) fn note_at(notes: &[Note], at: usize) -> Option<&Note>
    ensures { option_map (λ words. words.now) result ≡ slice_get notes.now at }
{
    notes.get(at)
}

/// Adds the numbers that the terminal named for an unclear payment, if there are any.
fn say_heard(text: &mut Text, heard: Option<Numbers>) -> Result<(), AllocError>
    ensures { OnOk result (text.new ≡ text.old ++ heard_words heard) }
{
    match heard {
        Some(numbers) => say_named(text, numbers),
        None => Ok(()),
    }
}
