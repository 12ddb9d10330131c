//! Writes the books of a trace in either form.
ghost use Rattle.std.specs.Prelude.{◌≡◌, ◌++◌, OnOk};
ghost use Rattle.zvt_till.specs.Judging.{books_value};
ghost use Rattle.zvt_audit.specs.Ends.{lines_of};
ghost use Rattle.zvt_audit.specs.Json.{books_in};

use crate::ends::Ends;
use crate::unfollowed::UnfollowedOrder;
use crate::{booked, objects};
use std::alloc::AllocError;
use zvt_bcd::Currency;
use zvt_text::{Form, Text};
use zvt_till::Books;
use zvt_trace::Tally;

/// Writes the books of a trace in this form. Only the JSON has the currency, the lines at which payments ended, and the
/// orders that are not followed.
pub(crate) fn write(
    text: &mut Text,
    form: Form,
    tally: Tally,
    currency: Option<Currency>,
    ends: &Ends,
    unfollowed: &[UnfollowedOrder],
    books: &Books,
) -> Result<(), AllocError>
    ensures { OnOk result (text.new ≡ text.old ++ books_in form tally currency (lines_of ends.now)
        unfollowed.now (books_value books.now)) }
{
    match form {
        Form::Text => booked::write(text, books),
        Form::Json => objects::write(text, tally, currency, ends, unfollowed, books),
    }
}
