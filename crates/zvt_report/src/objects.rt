//! The report of a trace as JSON objects, one per line.
ghost use Rattle.std.specs.Prelude.{◌≡◌, ◌++◌, OnOk};
ghost use Rattle.zvt_report.specs.Currencies.{decimals_of, money_of};
ghost use Rattle.zvt_report.specs.JsonReport.{report_json};
ghost use Rattle.zvt_report.specs.Kinds.{message_at};
ghost use Rattle.zvt_report.specs.LookObjects.{looks_json};
ghost use Rattle.zvt_report.specs.Objects.{one_if_other, order_line, others_from, row_line, rows_json, summary_line};
ghost use Rattle.zvt_report.specs.Places.{no_counts};

use crate::books::DayBooks;
use crate::cases::Look;
use crate::close_object::close;
use crate::closings::Closing;
use crate::currencies::{decimals_of, money_of};
use crate::differing::closing_at;
use crate::finding_objects::finding_rows;
use crate::findings::Finding;
use crate::kinds::{OrderKind, kind_of};
use crate::look_objects::look_rows;
use crate::members::{Name, Object, Value, write_object};
use crate::order_objects::{other, payment, plain, reversal};
use crate::parts::{count, maybe_currency, maybe_terminal, said_as};
use crate::places::{Counts, Place};
use crate::rows::{OrderMessage, OrderRow};
use crate::sums::{booked_total, net_total, reversed_count, unclear_reversals, unclear_total};
use crate::time_members::{back_member, bad_member, from_member, to_member};
use crate::times::Times;
use std::alloc::AllocError;
use zvt_bcd::Currency;
use zvt_text::Text;
use zvt_till::Sent;
use zvt_trace::Tally;

/// Writes an object for the whole trace, then one per order that a person should look at, then one per finding, then
/// one per order, and then the objects of slips. `messages` has the message of each order.
pub(crate) fn write(
    text: &mut Text,
    note: &mut Text,
    tally: Tally,
    currency: &Option<Currency>,
    terminal: Option<[u8; 4]>,
    times: &Times,
    books: &DayBooks,
    messages: &[OrderMessage],
    closings: &[Option<Closing>],
    looks: &[Look],
    findings: &[Finding],
    slips: &[u8],
) -> Result<(), AllocError>
    ensures { OnOk result (text.new ≡ text.old
        ++ report_json tally currency.now terminal times.now books.now messages.now closings.now looks.now
        findings.now slips.now) }
{
    summary(
        text, tally, *currency, terminal, times, books, messages, looks, findings,
    )?;
    look_lines(text, note, *currency, books, messages, closings, looks)?;
    finding_rows(text, note, decimals_of(&money_of(*currency)), findings)?;
    order_rows(text, books, messages, closings)?;
    text.word(slips)
}

/// Writes one object per look.
fn look_lines(
    text: &mut Text,
    note: &mut Text,
    currency: Option<Currency>,
    books: &DayBooks,
    messages: &[OrderMessage],
    closings: &[Option<Closing>],
    looks: &[Look],
) -> Result<(), AllocError>
    ensures { OnOk result (text.new ≡ text.old ++ looks_json (decimals_of (money_of currency)) books.now.book
        closings.now messages.now books.now.orders looks.now) }
{
    let decimals = decimals_of(&money_of(currency));
    let book = books.book.as_slice();
    let rows = books.orders.as_slice();
    look_rows(text, note, decimals, book, closings, messages, rows, looks)
}

/// Writes the object of the whole trace.
fn summary(
    text: &mut Text,
    tally: Tally,
    currency: Option<Currency>,
    terminal: Option<[u8; 4]>,
    times: &Times,
    books: &DayBooks,
    messages: &[OrderMessage],
    looks: &[Look],
    findings: &[Finding],
) -> Result<(), AllocError>
    ensures { OnOk result (text.new ≡ text.old
        ++ summary_line tally currency terminal times.now books.now messages.now looks.now findings.now) }
{
    let book = books.book.as_slice();
    let unclear = books.unclear.as_slice();
    let members = [
        count(Name::Bad, tally.bad),
        count(Name::Booked, book.len() as u64),
        maybe_currency(currency),
        said_as(
            Name::Looks,
            Value::Count(looks.len() as u128 + findings.len() as u128),
        ),
        count(Name::Messages, tally.messages),
        said_as(Name::Net, Value::Count(net_total(book))),
        count(
            Name::Others,
            others(books.orders.as_slice(), messages) as u64,
        ),
        count(Name::ReversalsUnclear, unclear_reversals(book) as u64),
        count(Name::Reversed, reversed_count(book) as u64),
        maybe_terminal(terminal),
        from_member(&times.span),
        to_member(&times.span),
        back_member(times.went_back),
        bad_member(times.bad, times.first_bad),
        said_as(Name::Total, Value::Count(booked_total(book))),
        count(Name::Unclear, unclear.len() as u64),
        said_as(Name::UnclearAmount, Value::Count(unclear_total(unclear))),
    ];
    write_object(text, Object::Summary, &members)
}

/// Returns the message of the order at this place, or an empty one if there is none.
pub(crate) fn message_at(messages: &[OrderMessage], place: usize) -> OrderMessage
    ensures { result ≡ message_at messages.now place }
{
    match messages.get(place) {
        Some(message) => *message,
        None => OrderMessage {
            high: 0,
            low: 0,
            amount: None,
            receipt: None,
        },
    }
}

/// Returns 1 for an order that moves money and that the book does not follow, and 0 for another one.
fn one_if_other(kind: OrderKind) -> usize
    ensures { result ≡ one_if_other kind }
{
    match kind {
        OrderKind::OtherMoney => 1,
        _ => 0,
    }
}

/// Returns the number of orders that move money and that the book does not follow.
pub(crate) fn others(rows: &[OrderRow], messages: &[OrderMessage]) -> usize
    ensures { result ≡ others_from messages.now 0 rows.now }
{
    let mut found = 0;
    let mut place = 0;
    let mut rest = rows;
    'rows: while let [row, later @ ..] = rest {
        let message = message_at(messages, place);
        found += one_if_other(kind_of(&row.order, message.high, message.low));
        place += 1;
        rest = later;
    }
    found
}

/// Writes one object per order.
fn order_rows(
    text: &mut Text,
    books: &DayBooks,
    messages: &[OrderMessage],
    closings: &[Option<Closing>],
) -> Result<(), AllocError>
    ensures { OnOk result (text.new ≡ text.old
        ++ rows_json books.now messages.now closings.now no_counts books.now.orders) }
{
    let mut counts = Counts::none();
    let mut rest = books.orders.as_slice();
    'rows: while let [row, later @ ..] = rest {
        let message = message_at(messages, counts.orders);
        let closing = closing_at(closings, counts.orders);
        write_row(text, books, &counts.place(row), row, &message, &closing)?;
        counts = counts.after(row);
        rest = later;
    }
    Ok(())
}

/// Writes the object of an order.
fn write_row(
    text: &mut Text,
    books: &DayBooks,
    place: &Place,
    row: &OrderRow,
    message: &OrderMessage,
    closing: &Option<Closing>,
) -> Result<(), AllocError>
    ensures { OnOk result (text.new ≡ text.old ++ row_line books.now place.now row.now message.now closing.now) }
{
    match &row.order {
        Sent::Pay(amount) => payment(text, books, place, row, *amount),
        order => {
            let kind = kind_of(order, message.high, message.low);
            write_order(text, kind, books, place, row, message, closing)
        }
    }
}

/// Writes the object of an order that is no payment.
fn write_order(
    text: &mut Text,
    kind: OrderKind,
    books: &DayBooks,
    place: &Place,
    row: &OrderRow,
    message: &OrderMessage,
    closing: &Option<Closing>,
) -> Result<(), AllocError>
    ensures { OnOk result (text.new ≡ text.old
        ++ order_line kind books.now place.now row.now message.now closing.now) }
{
    match kind {
        OrderKind::Reversal => reversal(text, books, place, row, message),
        OrderKind::OtherMoney => other(text, place, row, message),
        OrderKind::Close => close(text, place, row, closing),
        OrderKind::Payment | OrderKind::Plain => plain(text, place, row, message),
    }
}
