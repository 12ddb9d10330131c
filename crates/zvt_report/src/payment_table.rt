//! Writes the table of the payments.
ghost use Rattle.std.specs.Prelude.{◌≡◌, ◌++◌, OnOk};
ghost use Rattle.zvt_report.specs.Objects.{entry_at};
ghost use Rattle.zvt_report.specs.PaymentTable.{card_column, doubt_text, entry_text, explained, fraction_blanks};
ghost use Rattle.zvt_report.specs.PaymentTable.{lines_column, outcome_text, payment_columns, payment_heading};
ghost use Rattle.zvt_report.specs.PaymentTable.{payment_line, payment_row, payment_text, payments_from, payments_text};
ghost use Rattle.zvt_report.specs.PaymentTable.{receipt_column, trace_column, unclear_reversal};
ghost use Rattle.zvt_report.specs.Places.{no_counts};

use crate::amounts::amount_column;
use crate::card_texts::card_or_dash;
use crate::cards::Card;
use crate::columns::{left, repeat, right, zeros};
use crate::currencies::Decimals;
use crate::endings::ending_of;
use crate::parts::{receipt_by, trace_by};
use crate::places::{Counts, Place, payments_in};
use crate::rows::OrderRow;
use crate::times::time_column;
use itoa::Buffer;
use std::alloc::AllocError;
use zvt_bcd::{Amount, Trace};
use zvt_text::{Text, hexadecimal, result_words};
use zvt_till::{Cause, Doubt, Entry, Outcome, Sent};
use zvt_trace::Moment;

/// The width of the column of the cards.
const CARD_WIDTH: usize = 25;

/// Writes the blanks above the decimal point and the digits after it.
#[tactic(auto, unfolding(crate::specs::PaymentTable::fraction_blanks))]
pub(crate) fn fraction_blanks(text: &mut Text, decimals: Decimals) -> Result<(), AllocError>
    ensures { OnOk result (text.new ≡ text.old ++ fraction_blanks decimals) }
{
    match decimals {
        Decimals::Zero => Ok(()),
        Decimals::Two => text.word(b"   "),
        Decimals::Three => text.word(b"    "),
    }
}

/// Writes a trace number in its column, and a dash if there is none.
#[tactic(auto, unfolding(crate::specs::PaymentTable::trace_column))]
fn trace_column(text: &mut Text, trace: &Option<Trace>) -> Result<(), AllocError>
    ensures { OnOk result (text.new ≡ text.old ++ trace_column trace.now) }
{
    match trace {
        Some(trace) => {
            zeros(text, 6, u128::from(trace.get()))?;
            text.word(b"  ")
        }
        None => text.word(b"-       "),
    }
}

/// Writes a receipt number in its column, and a dash if there is none.
#[tactic(auto, unfolding(crate::specs::PaymentTable::receipt_column))]
pub(crate) fn receipt_column(text: &mut Text, receipt: &Option<[u8; 2]>) -> Result<(), AllocError>
    ensures { OnOk result (text.new ≡ text.old ++ receipt_column receipt.now) }
{
    match receipt {
        Some(receipt) => {
            hexadecimal(text, receipt)?;
            text.word(b"     ")
        }
        None => text.word(b"-        "),
    }
}

/// Writes a card in its column, and a dash if there is none.
#[tactic(auto, unfolding(crate::specs::PaymentTable::card_column))]
fn card_column(text: &mut Text, card: &Option<Card>) -> Result<(), AllocError>
    ensures { OnOk result (text.new ≡ text.old ++ card_column card.now) }
{
    let start = text.size();
    card_or_dash(text, card)?;
    let size = text.size() - start;
    repeat(text, b' ', CARD_WIDTH.saturating_sub(size))
}

/// Writes the lines of an order in their column, with the hyphens below each other.
#[tactic(auto, unfolding(crate::specs::PaymentTable::lines_column))]
pub(crate) fn lines_column(text: &mut Text, first: u64, last: u64) -> Result<(), AllocError>
    ensures { OnOk result (text.new ≡ text.old ++ lines_column first last) }
{
    right(text, 7, b"", u128::from(first))?;
    text.push(b'-')?;
    left(text, 9, Buffer::new().format(last).as_bytes())
}

/// Writes what explains the outcome of an order.
#[tactic(auto, unfolding(crate::specs::PaymentTable::explained))]
fn explained(text: &mut Text, outcome: &Outcome) -> Result<(), AllocError>
    ensures { OnOk result (text.new ≡ text.old ++ explained outcome.now) }
{
    match outcome {
        Outcome::Declined(code) | Outcome::Refused(code) | Outcome::Aborted(code) => {
            text.push(b' ')?;
            result_words(text, *code)
        }
        Outcome::Unclear(cause) => {
            text.push(b' ')?;
            text.word(cause.name().as_bytes())
        }
        _ => Ok(()),
    }
}

/// Writes what became of an order, in a word, and why.
#[tactic(auto, unfolding(crate::specs::PaymentTable::outcome_text))]
pub(crate) fn outcome_text(
    text: &mut Text,
    order: &Sent,
    outcome: &Outcome,
) -> Result<(), AllocError>
    ensures { OnOk result (text.new ≡ text.old ++ outcome_text order.now outcome.now) }
{
    text.word(ending_of(order, outcome).name().as_bytes())?;
    explained(text, outcome)
}

/// Writes that the reversal of a payment is unclear, and why.
fn unclear_reversal(text: &mut Text, cause: Cause) -> Result<(), AllocError>
    ensures { OnOk result (text.new ≡ text.old ++ unclear_reversal cause) }
{
    text.word(b"paid, reversal unclear ")?;
    text.word(cause.name().as_bytes())
}

/// Writes what became of a payment that stands, by the doubt about its reversal.
#[tactic(auto, unfolding(crate::specs::PaymentTable::doubt_text))]
fn doubt_text(text: &mut Text, doubt: &Doubt) -> Result<(), AllocError>
    ensures { OnOk result (text.new ≡ text.old ++ doubt_text doubt.now) }
{
    match doubt {
        Doubt::No => text.word(b"paid"),
        Doubt::Unclear(cause) => unclear_reversal(text, *cause),
        Doubt::TakenBack => text.word(b"paid, taken back before"),
    }
}

/// Writes what became of a payment that was booked.
#[tactic(auto, unfolding(crate::specs::PaymentTable::entry_text))]
fn entry_text(text: &mut Text, reversed: bool, doubt: &Doubt) -> Result<(), AllocError>
    ensures { OnOk result (text.new ≡ text.old ++ entry_text reversed doubt.now) }
{
    if reversed {
        text.word(b"taken back")
    } else {
        doubt_text(text, doubt)
    }
}

/// Writes what became of a payment, as its entry says if it was booked.
#[tactic(auto, unfolding(crate::specs::PaymentTable::payment_text))]
pub(crate) fn payment_text(
    text: &mut Text,
    entry: &Option<Entry>,
    row: &OrderRow,
) -> Result<(), AllocError>
    ensures { OnOk result (text.new ≡ text.old ++ payment_text entry.now row.now) }
{
    match entry {
        Some(entry) => entry_text(text, entry.reversed, &entry.doubt),
        None => outcome_text(text, &row.order, &row.outcome),
    }
}

/// Writes the number, the time, the amount, the trace number and the receipt number of a payment.
#[tactic(auto, unfolding(crate::specs::PaymentTable::payment_columns))]
fn payment_columns(
    text: &mut Text,
    decimals: Decimals,
    number: usize,
    time: &Option<Moment>,
    amount: Amount,
    trace: &Option<Trace>,
    receipt: &Option<[u8; 2]>,
) -> Result<(), AllocError>
    ensures { OnOk result (text.new ≡ text.old
        ++ payment_columns decimals number time.now amount trace.now receipt.now) }
{
    right(text, 4, b"", number as u128)?;
    time_column(text, time)?;
    amount_column(text, decimals, b"", u128::from(amount.get()))?;
    text.word(b"  ")?;
    trace_column(text, trace)?;
    receipt_column(text, receipt)
}

/// Writes the row of a payment.
#[tactic(auto, unfolding(crate::specs::PaymentTable::payment_row))]
fn payment_row(
    text: &mut Text,
    decimals: Decimals,
    number: usize,
    entry: &Option<Entry>,
    row: &OrderRow,
    amount: Amount,
) -> Result<(), AllocError>
    ensures { OnOk result (text.new ≡ text.old ++ payment_row decimals number entry.now row.now amount) }
{
    let trace = &trace_by(&row.outcome, &row.approval);
    let receipt = &receipt_by(&row.outcome, &row.approval);
    payment_columns(text, decimals, number, &row.time, amount, trace, receipt)?;
    card_column(text, &row.card)?;
    lines_column(text, row.first, row.last)?;
    payment_text(text, entry, row)?;
    text.push(b'\n')
}

/// Returns the entry at this place.
pub(crate) fn entry_at(book: &[Entry], place: Option<usize>) -> Option<Entry>
    ensures { result ≡ entry_at book.now place }
{
    book.get(place?).copied()
}

/// Writes the row of an order, if it is a payment.
#[tactic(auto, unfolding(crate::specs::PaymentTable::payment_line))]
fn payment_line(
    text: &mut Text,
    decimals: Decimals,
    book: &[Entry],
    place: &Place,
    row: &OrderRow,
) -> Result<(), AllocError>
    ensures { OnOk result (text.new ≡ text.old ++ payment_line decimals book.now place.now row.now row.now.order) }
{
    match &row.order {
        Sent::Pay(amount) => {
            let entry = entry_at(book, place.entry);
            payment_row(
                text,
                decimals,
                place.payment.unwrap_or(0),
                &entry,
                row,
                *amount,
            )
        }
        _ => Ok(()),
    }
}

/// Writes the rows of the payments.
fn payments_from(
    text: &mut Text,
    decimals: Decimals,
    book: &[Entry],
    rows: &[OrderRow],
) -> Result<(), AllocError>
    ensures { OnOk result (text.new ≡ text.old ++ payments_from decimals book.now no_counts rows.now) }
{
    let mut counts = Counts::none();
    let mut rest = rows;
    'rows: while let [row, later @ ..] = rest {
        payment_line(text, decimals, book, &counts.place(row), row)?;
        counts = counts.after(row);
        rest = later;
    }
    Ok(())
}

/// Writes the heading of the table.
#[tactic(auto, unfolding(crate::specs::PaymentTable::payment_heading))]
fn payment_heading(text: &mut Text, decimals: Decimals) -> Result<(), AllocError>
    ensures { OnOk result (text.new ≡ text.old ++ payment_heading decimals) }
{
    text.word(b"Payments\n   #  Time          Amount")?;
    fraction_blanks(text, decimals)?;
    text.word(b"  Trace   Receipt  Card                       Lines          Outcome\n")
}

/// Writes the table of the payments.
#[tactic(auto, unfolding(crate::specs::PaymentTable::payments_text))]
pub(crate) fn payments_text(
    text: &mut Text,
    decimals: Decimals,
    book: &[Entry],
    rows: &[OrderRow],
) -> Result<(), AllocError>
    ensures { OnOk result (text.new ≡ text.old ++ payments_text decimals book.now rows.now) }
{
    if payments_in(rows) == 0 {
        return text.word(b"Payments: none\n");
    }
    payment_heading(text, decimals)?;
    payments_from(text, decimals, book, rows)
}
