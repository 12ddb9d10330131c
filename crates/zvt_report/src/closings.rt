//! The ends of day that closed a day, and the book of the same time.
ghost use Rattle.std.specs.Prelude.{◌≡◌, ◌<◌, ◌≤◌, ◌*◌, ◌^◌, length, IfOk, IfSome, OnOk};
ghost use Rattle.std.specs.List.{list_any};
ghost use Rattle.zvt_report.specs.CardTotals.{groups_sum};
ghost use Rattle.zvt_report.specs.Closings.{closed_with, closing_of, closings, covered_by, explained_if};
ghost use Rattle.zvt_report.specs.Closings.{is_closed, items_after, paid_by, stated_total};
ghost use Rattle.zvt_report.specs.Closings.{statement_at, taken_by};
ghost use Rattle.zvt_report.specs.Places.{takes_back};

use crate::card_totals::{CardGroup, CardTotals};
use crate::explaining::{Explained, OpenItem, explain, open_item};
use crate::objects::message_at;
use crate::parts::amount_at;
use crate::places::takes_back;
use crate::rows::{OrderMessage, OrderRow};
use crate::statements::Statement;
use std::alloc::{AllocError, Global};
use zvt_till::{Entry, Outcome, Sent};

/// An end of day that closed the day.
#[derive(Clone, Copy)]
pub struct Closing {
    /// The total that the terminal states.
    pub stated: Option<u128>,
    /// The totals by card that the terminal states.
    pub totals: Option<CardTotals>,
    /// The sum of the payments that were booked after the last end of day that closed a day.
    pub booked: u128,
    /// The sum of the payments that were taken back in that time.
    pub taken_back: u128,
    /// The sum of `stated` and `taken_back`. It is `booked` if the terminal and the book agree.
    pub covered: Option<u128>,
    /// The orders that explain why the terminal and the book differ.
    pub explained: Explained,
}

/// Whether this order closed the day.
pub(crate) fn is_closed(row: &OrderRow) -> bool
    ensures { result ≡ is_closed row.now }
{
    match (&row.order, &row.outcome) {
        (Sent::CloseDay, Outcome::DayClosed) => true,
        _ => false,
    }
}

/// Returns the amount that this order booked.
fn paid_by(row: &OrderRow) -> u64
    ensures value { result ≡ paid_by row.now }
    ensures bound { result ≤ 1000000000000 }
{
    match (&row.order, &row.outcome) {
        (Sent::Pay(amount), Outcome::Paid { .. }) => amount.get(),
        _ => 0,
    }
}

/// Whether one of these orders took back the entry at this place.
fn was_taken_back(place: usize, rows: &[OrderRow]) -> bool
    ensures { result ≡ list_any (takes_back place) rows.now }
{
    rows.iter().any(|row| takes_back(place, row))
}

/// Returns the amount of the entry that this order took back, unless an earlier order did.
fn taken_by(book: &[Entry], earlier: &[OrderRow], row: &OrderRow) -> u64
    ensures value { result ≡ taken_by book.now earlier.now row.now }
    ensures bound { result ≤ 1000000000000 }
{
    match (&row.order, &row.outcome) {
        (Sent::Reverse(place), Outcome::Reversed) => {
            if was_taken_back(*place, earlier) {
                return 0;
            }
            match amount_at(book, Some(*place)) {
                Some(amount) => amount.get(),
                None => 0,
            }
        }
        _ => 0,
    }
}

/// Returns the sum of all groups.
fn groups_sum(groups: &[CardGroup]) -> u128
    requires { length groups.now ≡ 7 }
    ensures value { result ≡ groups_sum groups.now }
    ensures bound { result ≤ 7 * 2 ^ 64 }
{
    let mut total = 0;
    for group in groups {
        total += u128::from(group.sum);
    }
    total
}

/// Returns the total that the terminal states: the one in BMP 04, or else the sum of the totals by card.
fn stated_total(statement: &Statement) -> Option<u128>
    ensures value { result ≡ stated_total statement.now }
    ensures bound { IfSome result (λ total. total ≤ 7 * 2 ^ 64) }
{
    if let Some(total) = statement.total {
        return Some(u128::from(total));
    }
    match &statement.totals {
        Some(totals) => Some(groups_sum(&totals.groups)),
        None => None,
    }
}

/// Returns the statement about the order at this place, or an empty one if there is none.
fn statement_at(statements: &[Statement], place: usize) -> Statement
    ensures { result ≡ statement_at statements.now place }
{
    match statements.get(place) {
        Some(statement) => *statement,
        None => Statement::none(),
    }
}

/// Returns the orders that explain why the book does not cover a total.
fn explained_if(booked: u128, covered: Option<u128>, items: &[OpenItem]) -> Explained
    requires booked { booked ≤ 2 ^ 126 }
    requires covered { IfSome covered (λ total. total ≤ 2 ^ 126) }
    ensures { result ≡ explained_if booked covered items.now }
{
    match covered {
        Some(covered) => {
            if covered == booked {
                Explained::Nothing
            } else {
                explain(booked, covered, items)
            }
        }
        None => Explained::Nothing,
    }
}

/// Returns the stated total and what was taken back.
fn covered_by(stated: Option<u128>, taken_back: u128) -> Option<u128>
    requires stated { IfSome stated (λ total. total ≤ 7 * 2 ^ 64) }
    requires taken_back { taken_back ≤ 2 ^ 120 }
    ensures value { result ≡ covered_by stated taken_back }
    ensures bound { IfSome result (λ total. total ≤ 2 ^ 126) }
{
    match stated {
        Some(total) => Some(total + taken_back),
        None => None,
    }
}

/// Returns an end of day with this statement, after a time with these sums and these items.
fn closed_with(statement: &Statement, booked: u128, taken_back: u128, items: &[OpenItem]) -> Closing
    requires booked { booked ≤ 2 ^ 126 }
    requires taken_back { taken_back ≤ 2 ^ 120 }
    ensures { result ≡ closed_with statement.now booked taken_back items.now }
{
    let stated = stated_total(statement);
    let covered = covered_by(stated, taken_back);
    Closing {
        stated,
        totals: statement.totals,
        booked,
        taken_back,
        covered,
        explained: explained_if(booked, covered, items),
    }
}

/// What was booked and taken back since the last end of day that closed a day.
#[derive(Clone, Copy)]
pub(crate) struct Sums {
    booked: u128,
    taken_back: u128,
}

impl Sums {
    ghost use Rattle.std.specs.Prelude.{◌≡◌, ◌+◌, ◌≤◌, ◌^◌};
    ghost use Rattle.zvt_report.specs.Closings.{no_sums, sums_after};

    /// Starts a day.
    fn none() -> Sums
        ensures { result ≡ no_sums }
    {
        Sums {
            booked: 0,
            taken_back: 0,
        }
    }

    /// Returns the sums after this order.
    fn after(&self, book: &[Entry], earlier: &[OrderRow], row: &OrderRow) -> Sums
        requires booked { self.now.booked ≤ 2 ^ 119 }
        requires taken_back { self.now.taken_back ≤ 2 ^ 119 }
        ensures value { result ≡ sums_after book.now earlier.now self.now row.now }
        ensures booked { result.booked ≤ self.now.booked + 1000000000000 }
        ensures taken_back { result.taken_back ≤ self.now.taken_back + 1000000000000 }
    {
        if is_closed(row) {
            Sums::none()
        } else {
            Sums {
                booked: self.booked + u128::from(paid_by(row)),
                taken_back: self.taken_back + u128::from(taken_by(book, earlier, row)),
            }
        }
    }
}

/// Returns the end of day, if the order closes one, after a time with these sums and these items.
fn closing_of(
    statement: &Statement,
    sums: &Sums,
    items: &[OpenItem],
    closes: bool,
) -> Option<Closing>
    requires booked { sums.now.booked ≤ 2 ^ 126 }
    requires taken_back { sums.now.taken_back ≤ 2 ^ 120 }
    ensures { result ≡ closing_of statement.now sums.now items.now closes }
{
    if closes {
        Some(closed_with(statement, sums.booked, sums.taken_back, items))
    } else {
        None
    }
}

/// Adds an order that may have changed the terminal's total. An order that closes a day begins anew.
fn add_item(
    items: &mut Vec<OpenItem>,
    closes: bool,
    item: Option<OpenItem>,
) -> Result<(), AllocError>
    ensures { OnOk result (items.new.items ≡ items_after items.old.items closes item) }
{
    if closes {
        items.clear();
        return Ok(());
    }
    if let Some(item) = item {
        items.push(item)?;
    }
    Ok(())
}

/// Returns the closing of each order that closed a day, at the place of its row.
pub(crate) fn closings(
    alloc: Global,
    book: &[Entry],
    statements: &[Statement],
    messages: &[OrderMessage],
    rows: &[OrderRow],
) -> Result<Vec<Option<Closing>>, AllocError>
    ensures { IfOk result (λ found. found.items ≡ closings book.now statements.now messages.now rows.now) }
{
    let mut found = Vec::new(alloc);
    let mut sums = Sums::none();
    let mut items = Vec::new(alloc);
    let mut place = 0;
    let mut rest = rows;
    'rows: while let [row, later @ ..] = rest {
        let closes = is_closed(row);
        let statement = statement_at(statements, place);
        let message = message_at(messages, place);
        found.push(closing_of(&statement, &sums, items.as_slice(), closes))?;
        add_item(
            &mut items,
            closes,
            open_item(book, &message, place, row, later),
        )?;
        sums = sums.after(book, &rows[..place], row);
        place += 1;
        rest = later;
    }
    Ok(found)
}
