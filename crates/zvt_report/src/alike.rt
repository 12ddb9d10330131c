//! Finds payments of one amount that follow each other with one card.
ghost use Rattle.std.specs.Prelude.{◌≡◌, None, IfOk};
ghost use Rattle.zvt_report.specs.Alike.{are_near, is_marked, last_with, repeated, repeated_at};
ghost use Rattle.zvt_report.specs.Alike.{repeated_payments, repeats, seconds, standing, standing_by};

use crate::cards::card_number;
use crate::places::Counts;
use crate::rows::OrderRow;
use std::alloc::{AllocError, Global};
use zvt_bcd::Amount;
use zvt_till::{Entry, Outcome, Sent};
use zvt_trace::Moment;

/// How many seconds two payments are apart at most.
const NEAR: u64 = 900;

/// A payment that is booked and not taken back, and the masked number of its card.
#[derive(Clone, Copy)]
pub(crate) struct Standing {
    pub(crate) number: [u8; 10],
    pub(crate) amount: Amount,
    pub(crate) time: Option<Moment>,
    /// The index of the order's row, counted from 0.
    pub(crate) order: usize,
}

/// Whether the entry at this place is marked.
pub(crate) fn is_marked(book: &[Entry], place: usize) -> bool
    ensures { result ≡ is_marked book.now place }
{
    match book.get(place) {
        Some(entry) => entry.reversed,
        None => false,
    }
}

/// Returns a booked payment, if it is not taken back and the number of its card is known.
fn standing_by(
    marked: bool,
    amount: Amount,
    number: Option<[u8; 10]>,
    time: Option<Moment>,
    order: usize,
) -> Option<Standing>
    ensures { result ≡ standing_by marked amount number time order }
{
    if marked {
        return None;
    }
    Some(Standing {
        number: number?,
        amount,
        time,
        order,
    })
}

/// Returns the next row, if it is a payment that stands and the number of its card is known.
fn standing_payment(book: &[Entry], counts: &Counts, row: &OrderRow) -> Option<Standing>
    ensures { result ≡ standing book.now counts.now row.now }
{
    match (&row.order, &row.outcome) {
        (Sent::Pay(amount), Outcome::Paid { .. }) => {
            let marked = is_marked(book, counts.entries);
            standing_by(
                marked,
                *amount,
                card_number(&row.card),
                row.time,
                counts.orders,
            )
        }
        _ => None,
    }
}

/// Returns seconds that grow with time. Each month counts as 31 days.
pub(crate) fn seconds(moment: &Moment) -> u64
    ensures { result ≡ seconds moment.now }
{
    let days = (u64::from(moment.year) * 12 + u64::from(moment.month)) * 31 + u64::from(moment.day);
    let minutes = (days * 24 + u64::from(moment.hour)) * 60 + u64::from(moment.minute);
    minutes * 60 + u64::from(moment.second)
}

/// Whether two payments are not more than 15 minutes apart, as far as is known.
fn are_near(before: &Option<Moment>, after: &Option<Moment>) -> bool
    ensures { result ≡ are_near before.now after.now }
{
    match (before, after) {
        (Some(before), Some(after)) => {
            let (before, after) = (seconds(before), seconds(after));
            after.saturating_sub(before) <= NEAR && before.saturating_sub(after) <= NEAR
        }
        _ => true,
    }
}

/// Returns the last of these payments with this card.
fn last_with(number: [u8; 10], seen: &[Standing]) -> Option<Standing>
    ensures { result ≡ last_with number None seen.now }
{
    let mut found = None;
    let mut rest = seen;
    'seen: while let [one, later @ ..] = rest {
        if one.number == number {
            found = Some(*one);
        }
        rest = later;
    }
    found
}

/// Returns the place of the earlier payment with the same card, if this payment repeats it.
fn repeated(before: &Option<Standing>, payment: &Standing) -> Option<usize>
    ensures { result ≡ repeated before.now payment.now }
{
    match before {
        Some(before) if before.amount == payment.amount && are_near(&before.time, &payment.time) =>
            { Some(before.order) }
        _ => None,
    }
}

/// Returns the place of the payment that this one repeats, of those before it.
fn repeats(seen: &[Standing], payment: &Option<Standing>) -> Option<usize>
    ensures { result ≡ repeats seen.now payment.now }
{
    match payment {
        Some(payment) => repeated(&last_with(payment.number, seen), payment),
        None => None,
    }
}

/// Returns for each row the place of the payment that it repeats: the last earlier one with the same card, if both
/// stand, have the same amount and are not far apart.
pub(crate) fn repeated_payments(
    alloc: Global,
    book: &[Entry],
    rows: &[OrderRow],
) -> Result<Vec<Option<usize>>, AllocError>
    ensures { IfOk result (λ found. found.items ≡ repeated_payments book.now rows.now) }
{
    let mut found = Vec::new(alloc);
    let mut seen = Vec::new(alloc);
    let mut counts = Counts::none();
    let mut rest = rows;
    'rows: while let [row, later @ ..] = rest {
        let payment = standing_payment(book, &counts, row);
        found.push(repeats(seen.as_slice(), &payment))?;
        if let Some(payment) = payment {
            seen.push(payment)?;
        }
        counts = counts.after(row);
        rest = later;
    }
    Ok(found)
}

/// Returns the place of the payment that the order at this place repeats.
pub(crate) fn repeated_at(found: &[Option<usize>], place: usize) -> Option<usize>
    ensures { result ≡ repeated_at found.now place }
{
    *found.get(place)?
}
