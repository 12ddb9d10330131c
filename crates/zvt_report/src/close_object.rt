//! Writes the object of an end of day.
ghost use Rattle.std.specs.Prelude.{◌≡◌, ◌++◌, OnOk};
ghost use Rattle.zvt_report.specs.CloseObjects.{book_member, difference_member, differs_member, explained_member};
ghost use Rattle.zvt_report.specs.CloseObjects.{groups_member, groups_of, orders_of, receipts_member, receipts_of};
ghost use Rattle.zvt_report.specs.CloseObjects.{stated_member, stated_of};
ghost use Rattle.zvt_report.specs.Members.{object_text};
ghost use Rattle.zvt_report.specs.Objects.{close_members};
ghost use Rattle.zvt_report.specs.declared.members.Object.TheVariants as object_of;

use crate::card_totals::CardTotals;
use crate::closings::Closing;
use crate::explaining::Explained;
use crate::members::{Member, Name, Object, Value, write_object};
use crate::parts::{cause_of, code, count, ending, lines, maybe_cause, said_as, words};
use crate::places::Place;
use crate::rows::OrderRow;
use crate::time_members::maybe_time;
use std::alloc::AllocError;
use zvt_text::Text;

/// Returns the member of what was booked less what was taken back.
fn book_member(closing: &Option<Closing>) -> Option<Member>
    ensures { result ≡ book_member closing.now }
{
    match closing {
        Some(closing) => said_as(
            Name::Book,
            Value::Difference(closing.booked, closing.taken_back),
        ),
        None => None,
    }
}

/// Returns the member of the difference between the terminal's total and the book, if there is one.
fn difference_member(booked: u128, covered: Option<u128>) -> Option<Member>
    ensures { result ≡ difference_member booked covered }
{
    let covered = covered?;
    if covered == booked {
        None
    } else {
        said_as(Name::Differs, Value::Difference(covered, booked))
    }
}

/// Returns the member of the difference of an end of day, if it has one.
fn differs_member(closing: &Option<Closing>) -> Option<Member>
    ensures { result ≡ differs_member closing.now }
{
    match closing {
        Some(closing) => difference_member(closing.booked, closing.covered),
        None => None,
    }
}

/// Returns the member of the orders that explain a difference, if there are any.
fn orders_of(explained: Explained) -> Option<Member>
    ensures { result ≡ orders_of explained }
{
    match explained {
        Explained::One(_) | Explained::Two(..) | Explained::Three(..) => {
            said_as(Name::ExplainedBy, Value::Orders(explained))
        }
        Explained::Nothing | Explained::Empty | Explained::Several => None,
    }
}

/// Returns the member of the orders that explain the difference of an end of day, if there are any.
fn explained_member(closing: &Option<Closing>) -> Option<Member>
    ensures { result ≡ explained_member closing.now }
{
    match closing {
        Some(closing) => orders_of(closing.explained),
        None => None,
    }
}

/// Returns the member of the totals by card, if there are any.
fn groups_of(totals: &Option<CardTotals>) -> Option<Member>
    ensures { result ≡ groups_of totals.now }
{
    match totals {
        Some(totals) => said_as(Name::Groups, Value::Groups(totals.groups)),
        None => None,
    }
}

/// Returns the member of the totals by card of an end of day, if it has them.
fn groups_member(closing: &Option<Closing>) -> Option<Member>
    ensures { result ≡ groups_member closing.now }
{
    match closing {
        Some(closing) => groups_of(&closing.totals),
        None => None,
    }
}

/// Returns the member of the receipt numbers in the totals by card, if there are any.
fn receipts_of(totals: &Option<CardTotals>) -> Option<Member>
    ensures { result ≡ receipts_of totals.now }
{
    match totals {
        Some(totals) => said_as(Name::Receipts, Value::Receipts(totals.first, totals.last)),
        None => None,
    }
}

/// Returns the member of the receipt numbers of an end of day, if it has them.
fn receipts_member(closing: &Option<Closing>) -> Option<Member>
    ensures { result ≡ receipts_member closing.now }
{
    match closing {
        Some(closing) => receipts_of(&closing.totals),
        None => None,
    }
}

/// Returns the member of this total, if there is one.
fn stated_of(stated: Option<u128>) -> Option<Member>
    ensures { result ≡ stated_of stated }
{
    said_as(Name::Stated, Value::Count(stated?))
}

/// Returns the member of the terminal's total, if it states one.
fn stated_member(closing: &Option<Closing>) -> Option<Member>
    ensures { result ≡ stated_member closing.now }
{
    match closing {
        Some(closing) => stated_of(closing.stated),
        None => None,
    }
}

/// Writes the object of an end of day.
pub(crate) fn close(
    text: &mut Text,
    place: &Place,
    row: &OrderRow,
    closing: &Option<Closing>,
) -> Result<(), AllocError>
    ensures { OnOk result (text.new ≡ text.old ++ object_text object_of.Close
        (close_members closing.now place.now row.now)) }
{
    let members = [
        book_member(closing),
        maybe_cause(Name::Cause, cause_of(&row.outcome)),
        code(&row.outcome),
        differs_member(closing),
        explained_member(closing),
        groups_member(closing),
        lines(row),
        count(Name::Order, place.order as u64),
        ending(row),
        receipts_member(closing),
        stated_member(closing),
        maybe_time(&row.time),
        words(&row.outcome),
    ];
    write_object(text, Object::Close, &members)
}
