//! Finds the payment that a reversal takes back.
ghost use Rattle.std.specs.Prelude.{◌≡◌};
ghost use Rattle.zvt_report.specs.Naming.{has_receipt, last_with, reversing};

use zvt_till::{Entry, Sent};

/// Whether the entry has this receipt number.
fn has_receipt(receipt: [u8; 2], entry: &Entry) -> bool
    ensures { result ≡ has_receipt receipt entry.now }
{
    match entry.receipt {
        Some(own) => own == receipt,
        None => false,
    }
}

/// Returns the place of the last entry with this receipt number.
fn last_with(receipt: [u8; 2], book: &[Entry]) -> Option<usize>
    ensures { result ≡ last_with receipt 0 book.now }
{
    let mut found = None;
    'entries: for place in 0..book.len() {
        if has_receipt(receipt, &book[place]) {
            found = Some(place);
        }
    }
    found
}

/// Returns the reversal that names this receipt number: of the last payment that has it, since receipt numbers begin
/// anew. Without such a payment, it is an order that the book does not know.
pub(crate) fn reversing(book: &[Entry], receipt: Option<[u8; 2]>) -> Sent
    ensures { result ≡ reversing book.now receipt }
{
    let Some(receipt) = receipt else {
        return Sent::Foreign;
    };
    match last_with(receipt, book) {
        Some(place) => Sent::Reverse(place),
        None => Sent::Foreign,
    }
}
