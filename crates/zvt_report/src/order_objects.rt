//! The JSON object of an order.
ghost use Rattle.std.specs.Prelude.{◌≡◌, ◌++◌, OnOk};
ghost use Rattle.zvt_report.specs.Members.{object_text};
ghost use Rattle.zvt_report.specs.Objects.{other_members, payment_members, plain_members};
ghost use Rattle.zvt_report.specs.Objects.{reversal_members};
ghost use Rattle.zvt_report.specs.declared.members.Object.TheVariants as object_of;

use crate::books::DayBooks;
use crate::members::{Name, Object, write_object};
use crate::parts::{
    amount_at, approved_of, cause_of, code, command, control, count, ending, lines, maybe_amount,
    maybe_card, maybe_card_number, maybe_cause, maybe_count, maybe_receipt, maybe_trace,
    payment_for, receipt_by, reversed_at, taken_back_at, trace_by, true_if, unclear_at, words,
};
use crate::places::Place;
use crate::rows::{OrderMessage, OrderRow};
use crate::time_members::maybe_time;
use std::alloc::AllocError;
use zvt_bcd::Amount;
use zvt_text::Text;

/// Writes the object of a payment of this amount.
pub(crate) fn payment(
    text: &mut Text,
    books: &DayBooks,
    place: &Place,
    row: &OrderRow,
    amount: Amount,
) -> Result<(), AllocError>
    ensures { OnOk result (text.new ≡ text.old ++ object_text object_of.Payment
        (payment_members books.now place.now row.now amount)) }
{
    let book = books.book.as_slice();
    let entry = place.entry;
    let members = [
        count(Name::Amount, amount.get()),
        maybe_amount(Name::Approved, approved_of(row)),
        maybe_card(&row.card),
        maybe_card_number(&row.card),
        maybe_cause(Name::Cause, cause_of(&row.outcome)),
        code(&row.outcome),
        lines(row),
        count(Name::Order, place.order as u64),
        ending(row),
        maybe_count(Name::Payment, place.payment),
        maybe_receipt(receipt_by(&row.outcome, &row.approval)),
        maybe_cause(Name::ReversalUnclear, unclear_at(book, entry)),
        maybe_count(
            Name::ReversedBy,
            reversed_at(entry, books.orders.as_slice()),
        ),
        true_if(Name::TakenBack, taken_back_at(book, entry)),
        maybe_time(&row.time),
        maybe_trace(trace_by(&row.outcome, &row.approval)),
        words(&row.outcome),
    ];
    write_object(text, Object::Payment, &members)
}

/// Writes the object of a reversal. The amount of a payment that is not in the trace is the one that the message names.
pub(crate) fn reversal(
    text: &mut Text,
    books: &DayBooks,
    place: &Place,
    row: &OrderRow,
    message: &OrderMessage,
) -> Result<(), AllocError>
    ensures { OnOk result (text.new ≡ text.old ++ object_text object_of.Reversal
        (reversal_members books.now place.now row.now message.now)) }
{
    let taken_back = amount_at(books.book.as_slice(), place.entry);
    let members = [
        maybe_amount(Name::Amount, taken_back.or(message.amount)),
        maybe_cause(Name::Cause, cause_of(&row.outcome)),
        code(&row.outcome),
        lines(row),
        count(Name::Order, place.order as u64),
        ending(row),
        maybe_count(
            Name::Payment,
            payment_for(place.entry, books.orders.as_slice()),
        ),
        maybe_receipt(message.receipt),
        maybe_time(&row.time),
        words(&row.outcome),
    ];
    write_object(text, Object::Reversal, &members)
}

/// Writes the object of another order that moves money. Its amount is the one that the message names, or else the first
/// that the terminal approved.
pub(crate) fn other(
    text: &mut Text,
    place: &Place,
    row: &OrderRow,
    message: &OrderMessage,
) -> Result<(), AllocError>
    ensures { OnOk result (text.new ≡ text.old ++ object_text object_of.Other
        (other_members place.now row.now message.now)) }
{
    let members = [
        maybe_amount(Name::Amount, message.amount.or(approved_of(row))),
        maybe_cause(Name::Cause, cause_of(&row.outcome)),
        code(&row.outcome),
        control(message),
        lines(row),
        command(message),
        count(Name::Order, place.order as u64),
        ending(row),
        maybe_time(&row.time),
        words(&row.outcome),
    ];
    write_object(text, Object::Other, &members)
}

/// Writes the object of an order that moves no money.
pub(crate) fn plain(
    text: &mut Text,
    place: &Place,
    row: &OrderRow,
    message: &OrderMessage,
) -> Result<(), AllocError>
    ensures { OnOk result (text.new ≡ text.old ++ object_text object_of.Order
        (plain_members place.now row.now message.now)) }
{
    let members = [
        maybe_cause(Name::Cause, cause_of(&row.outcome)),
        code(&row.outcome),
        control(message),
        lines(row),
        command(message),
        count(Name::Order, place.order as u64),
        ending(row),
        maybe_time(&row.time),
        words(&row.outcome),
    ];
    write_object(text, Object::Order, &members)
}
