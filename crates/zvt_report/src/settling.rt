//! When an end of day counts as closed.
ghost use Rattle.std.specs.Prelude.{◌≡◌, IfOk};
ghost use Rattle.zvt_report.specs.Settling.{card_at, closed_if, declined_at, settled, settled_from};
ghost use Rattle.zvt_report.specs.Settling.{settled_outcome, settled_row};

use crate::books::DayBooks;
use crate::cards::Card;
use crate::rows::OrderRow;
use crate::statements::Statement;
use std::alloc::{AllocError, Global};
use zvt_till::{Cause, Outcome, Sent};

/// Returns the outcome of an end of day whose status informations conflict.
fn closed_if(declines: bool) -> Outcome
    ensures { result ≡ closed_if declines }
{
    if declines {
        Outcome::Unclear(Cause::Conflict)
    } else {
        Outcome::DayClosed
    }
}

/// Returns how an order ended. The status informations of an end of day may lack a result code. The day is then closed
/// unless one of them declines it.
fn settled_outcome(order: &Sent, outcome: &Outcome, declines: bool) -> Outcome
    ensures { result ≡ settled_outcome order.now outcome.now declines }
{
    match (order, outcome) {
        (Sent::CloseDay, Outcome::Unclear(Cause::Conflict)) => closed_if(declines),
        _ => *outcome,
    }
}

/// Whether a status declines the order at this place.
fn declined_at(statements: &[Statement], place: usize) -> bool
    ensures { result ≡ declined_at statements.now place }
{
    match statements.get(place) {
        Some(statement) => statement.declines,
        None => true,
    }
}

/// Returns the card of the order at this place.
fn card_at(statements: &[Statement], place: usize) -> Option<Card>
    ensures { result ≡ card_at statements.now place }
{
    match statements.get(place) {
        Some(statement) => statement.card,
        None => None,
    }
}

/// Returns the row of an order at this place after what was stated about it.
fn settled_row(statements: &[Statement], place: usize, row: &OrderRow) -> OrderRow
    ensures { result ≡ settled_row statements.now place row.now }
{
    OrderRow {
        order: row.order,
        first: row.first,
        last: row.last,
        outcome: settled_outcome(&row.order, &row.outcome, declined_at(statements, place)),
        approval: row.approval,
        time: row.time,
        card: card_at(statements, place),
    }
}

/// Returns the rows after what was stated about each order.
fn settled_rows(
    alloc: Global,
    statements: &[Statement],
    rows: &[OrderRow],
) -> Result<Vec<OrderRow>, AllocError>
    ensures { IfOk result (λ found. found.items ≡ settled_from statements.now 0 rows.now) }
{
    let mut found = Vec::new(alloc);
    let mut place = 0;
    let mut rest = rows;
    'rows: while let [row, later @ ..] = rest {
        found.push(settled_row(statements, place, row))?;
        place += 1;
        rest = later;
    }
    Ok(found)
}

/// Returns a day after what was stated about each of its orders.
pub(crate) fn settle(
    alloc: Global,
    statements: &[Statement],
    books: DayBooks,
) -> Result<DayBooks, AllocError>
    ensures { IfOk result (λ new. new ≡ settled statements.now books) }
{
    let orders = settled_rows(alloc, statements, books.orders.as_slice())?;
    Ok(DayBooks {
        book: books.book,
        unclear: books.unclear,
        orders,
    })
}
