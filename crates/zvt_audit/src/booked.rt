//! Writes the books of a log as text.
ghost use Rattle.std.specs.Prelude.{◌≡◌, ◌++◌, OnOk};
ghost use Rattle.zvt_till.specs.Judging.{books_value, rows_value, row_value};
ghost use Rattle.zvt_audit.specs.Booked.{booked_line, books_text, total, unclear_line};

use std::alloc::AllocError;
use zvt_bcd::Amount;
use zvt_text::Text;
use zvt_till::{Booked, Books, Cause};

/// Writes one line per completed payment, then one per unclear payment, then the sum of the completed ones.
pub(crate) fn write(text: &mut Text, books: &Books) -> Result<(), AllocError>
    ensures { OnOk result (text.new ≡ text.old ++ books_text (books_value books.now)) }
{
    for row in &books.booked {
        booked_row(text, row)?;
    }
    for row in &books.unclear {
        unclear_row(text, row)?;
    }
    let total = total(books.booked.as_slice());
    text.word(b"total ")?;
    text.number(total)?;
    text.push(b'\n')
}

/// Writes the line of a completed payment.
fn booked_row(text: &mut Text, row: &Booked) -> Result<(), AllocError>
    ensures { OnOk result (text.new ≡ text.old ++ booked_line (row_value row.now)) }
{
    text.word(b"booked ")?;
    text.number(row.amount.get())?;
    text.push(b' ')?;
    zvt_text::numbers(text, row.trace, row.receipt)?;
    text.push(b'\n')
}

/// Writes the line of an unclear payment.
fn unclear_row(text: &mut Text, row: &(Amount, Cause)) -> Result<(), AllocError>
    ensures { OnOk result (text.new ≡ text.old ++ unclear_line row.now) }
{
    let (amount, cause) = row;
    text.word(b"unclear ")?;
    text.number(amount.get())?;
    text.push(b' ')?;
    text.word(cause.name().as_bytes())?;
    text.push(b'\n')
}

/// Returns the sum of the completed payments.
pub(crate) fn total(rows: &[Booked]) -> u128
    ensures { result ≡ total (rows_value rows.now) }
{
    let mut total = 0;
    for row in rows {
        total += u128::from(row.amount.get());
    }
    total
}
