//! The orders of the books that a service knows.
ghost use Rattle.std.specs.Prelude.{◌≡◌, find, option_copied};
ghost use Rattle.zvt_service.specs.Books.{has_key};

use crate::fates::Fate;
use zvt_kept::{PastOrder, PastOrders, Recovered};
use zvt_settle::SettlingTill;
use zvt_till::Entry;

/// An order that was found by its key, what is known of it, and the entries of its book.
#[derive(Clone, Copy)]
pub struct Found<'s> {
    pub past: &'s PastOrder,
    pub fate: Fate,
    pub entries: &'s [Entry],
    /// Whether its book is the service's own. The other books are of earlier days.
    pub is_own: bool,
}

impl<'s> Found<'s> {
    ghost use Rattle.std.specs.Prelude.{◌≡◌, option_map};
    ghost use Rattle.zvt_settle.specs.Inside.{both_of};
    ghost use Rattle.zvt_service.specs.Books.{in_book, in_earlier, order_found, order_in};

    /// Returns the order with this key in a book with this till and these orders.
    pub(crate) fn in_book(
        till: &'s SettlingTill,
        orders: &'s PastOrders,
        key: &[u8],
        is_own: bool,
    ) -> Option<Found<'s>>
        ensures { option_map order_found result ≡ in_book key.now is_own (both_of till.now) orders.now }
    {
        match orders.find(key) {
            Some(past) => Some(Found::of(past, till, orders, key, is_own)),
            None => None,
        }
    }

    /// Returns the order with this key in the first of these books that has one.
    pub(crate) fn in_earlier(earlier: &'s [Recovered], key: &[u8]) -> Option<Found<'s>>
        ensures { option_map order_found result ≡ in_earlier key.now earlier.now }
    {
        match book_with(earlier, key) {
            Some(book) => Found::in_book(&book.till, &book.orders, key, false),
            None => None,
        }
    }

    fn of(
        past: &'s PastOrder,
        till: &'s SettlingTill,
        orders: &PastOrders,
        key: &[u8],
        is_own: bool,
    ) -> Found<'s>
        ensures { order_found result ≡ order_in key.now is_own (both_of till.now) orders.now past.now }
    {
        Found {
            past,
            fate: Fate::of(past, key, orders.as_slice(), till.settled()),
            entries: till.till().book(),
            is_own,
        }
    }
}

/// Returns the first of these books that has an order with this key.
fn book_with<'s>(earlier: &'s [Recovered], key: &[u8]) -> Option<&'s Recovered>
    ensures { option_copied result ≡ find (has_key key.now) earlier.now }
{
    earlier.iter().find(|book| book.orders.find(key).is_some())
}
