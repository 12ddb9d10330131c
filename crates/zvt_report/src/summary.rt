//! Writes the summary of a day.
ghost use Rattle.std.specs.Prelude.{◌≡◌, ◌++◌, OnOk};
ghost use Rattle.zvt_report.specs.Summary.{booked_line, net_line, summary_text, taken_back_line, unclear_line};
ghost use Rattle.zvt_report.specs.Summary.{minus, unit_text};

use crate::amounts::{amount_column, count};
use crate::books::DayBooks;
use crate::currencies::{Money, decimals_of};
use crate::sums::{
    booked_total, net_total, reversed_count, taken_back, unclear_reversals, unclear_total,
};
use std::alloc::AllocError;
use zvt_bcd::Amount;
use zvt_text::Text;
use zvt_till::{Cause, Entry};

/// Writes the letters of the currency, or in which unit the amounts are.
#[tactic(auto, unfolding(crate::specs::Summary::unit_text))]
pub(crate) fn unit(text: &mut Text, money: &Option<Money>) -> Result<(), AllocError>
    ensures { OnOk result (text.new ≡ text.old ++ unit_text money.now) }
{
    match money {
        Some(money) => {
            text.push(b' ')?;
            text.word(&money.letters)
        }
        None => text.word(b" in the smallest unit of the currency"),
    }
}

/// Writes the line of the net total.
fn net_line(text: &mut Text, money: &Option<Money>, book: &[Entry]) -> Result<(), AllocError>
    ensures { OnOk result (text.new ≡ text.old ++ net_line money.now book.now) }
{
    text.word(b"Net total   ")?;
    amount_column(text, decimals_of(money), b"", net_total(book))?;
    unit(text, money)?;
    text.push(b'\n')
}

/// Writes the line of the booked payments.
#[tactic(auto, unfolding(crate::specs::Summary::booked_line))]
fn booked_line(text: &mut Text, money: &Option<Money>, book: &[Entry]) -> Result<(), AllocError>
    ensures { OnOk result (text.new ≡ text.old ++ booked_line money.now book.now) }
{
    text.word(b"  booked    ")?;
    amount_column(text, decimals_of(money), b"", booked_total(book))?;
    text.word(b"  ")?;
    count(text, book.len(), b"payment")?;
    text.push(b'\n')
}

/// Returns the sign of a sum that was taken back.
#[tactic(auto, unfolding(crate::specs::Summary::minus))]
pub(crate) fn minus(units: u128) -> &'static [u8]
    ensures { result.now ≡ minus units }
{
    if units == 0 { b"" } else { b"-" }
}

/// Writes the line of the payments that were taken back.
fn taken_back_line(text: &mut Text, money: &Option<Money>, book: &[Entry]) -> Result<(), AllocError>
    ensures { OnOk result (text.new ≡ text.old ++ taken_back_line money.now book.now) }
{
    text.word(b"  taken back")?;
    let taken = taken_back(book);
    amount_column(text, decimals_of(money), minus(taken), taken)?;
    text.word(b"  ")?;
    count(text, reversed_count(book), b"reversal")?;
    text.push(b'\n')
}

/// Writes the line of the unclear payments and reversals.
fn unclear_line(
    text: &mut Text,
    money: &Option<Money>,
    book: &[Entry],
    unclear: &[(Amount, Cause)],
) -> Result<(), AllocError>
    ensures { OnOk result (text.new ≡ text.old ++ unclear_line money.now book.now unclear.now) }
{
    text.word(b"Unclear     ")?;
    amount_column(text, decimals_of(money), b"", unclear_total(unclear))?;
    text.word(b"  ")?;
    count(text, unclear.len(), b"payment")?;
    text.word(b", ")?;
    count(text, unclear_reversals(book), b"reversal")?;
    text.push(b'\n')
}

/// Writes the summary of a day.
pub(crate) fn write(
    text: &mut Text,
    money: &Option<Money>,
    books: &DayBooks,
) -> Result<(), AllocError>
    ensures { OnOk result (text.new ≡ text.old ++ summary_text money.now books.now) }
{
    let book = books.book.as_slice();
    net_line(text, money, book)?;
    booked_line(text, money, book)?;
    taken_back_line(text, money, book)?;
    unclear_line(text, money, book, books.unclear.as_slice())
}
