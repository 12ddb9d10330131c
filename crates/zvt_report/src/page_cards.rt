//! Writes the summary of a day to a page.
ghost use Rattle.std.specs.Prelude.{◌≡◌, ◌++◌, [], OnOk};
ghost use Rattle.zvt_page.specs.Html.{class_of, end_tag, leaf, render, start_tag};
ghost use Rattle.zvt_report.specs.Amounts.{amount_text, count_text};
ghost use Rattle.zvt_report.specs.PageCards.{booked_card, cards, net_card, others_card, taken_back_card, unclear_card};
ghost use Rattle.zvt_report.specs.PageCards.{unclear_class, unclear_note};

use crate::amounts::{amount, count};
use crate::books::DayBooks;
use crate::currencies::Decimals;
use crate::objects::others;
use crate::rows::OrderMessage;
use crate::summary::minus;
use crate::sums::{
    booked_total, net_total, reversed_count, taken_back, unclear_reversals, unclear_total,
};
use std::alloc::AllocError;
use zvt_bcd::Amount;
use zvt_page::{Element, end, leaf, start};
use zvt_text::Text;
use zvt_till::{Cause, Entry};

/// Writes the start of a figure, and its name.
fn card_start(page: &mut Text, class: &[u8], name: &[u8]) -> Result<(), AllocError>
    ensures { OnOk result (page.new ≡ page.old
        ++ (start_tag Element.Div (class_of class.now) ++ render (leaf Element.Dt [] name.now))) }
{
    start(page, Element::Div, class, None)?;
    leaf(page, Element::Dt, b"", name)
}

/// Writes what a figure consists of, and its end.
fn card_end(page: &mut Text, note: &[u8]) -> Result<(), AllocError>
    ensures { OnOk result (page.new ≡ page.old
        ++ (render (leaf Element.Dd [] note.now) ++ end_tag Element.Div)) }
{
    leaf(page, Element::Dd, b"", note)?;
    end(page, Element::Div)
}

/// Writes the value of a figure, with its sign.
fn amount_value(
    page: &mut Text,
    note: &mut Text,
    decimals: Decimals,
    sign: &[u8],
    units: u128,
) -> Result<(), AllocError>
    ensures { OnOk result (page.new ≡ page.old
        ++ render (leaf Element.Dd [] (sign.now ++ amount_text decimals units))) }
{
    note.clear();
    note.word(sign)?;
    amount(note, decimals, units)?;
    leaf(page, Element::Dd, b"", note.bytes())
}

/// Writes of how many things a figure consists, and its end.
fn count_end(page: &mut Text, note: &mut Text, number: usize, word: &[u8]) -> Result<(), AllocError>
    ensures { OnOk result (page.new ≡ page.old
        ++ (render (leaf Element.Dd [] (count_text number word.now)) ++ end_tag Element.Div)) }
{
    note.clear();
    count(note, number, word)?;
    card_end(page, note.bytes())
}

/// Writes the net total.
#[tactic(auto, unfolding(crate::specs::PageCards::net_card))]
fn net_card(
    page: &mut Text,
    note: &mut Text,
    decimals: Decimals,
    book: &[Entry],
) -> Result<(), AllocError>
    ensures { OnOk result (page.new ≡ page.old ++ render (net_card decimals book.now)) }
{
    card_start(page, b"", b"Net total")?;
    amount_value(page, note, decimals, b"", net_total(book))?;
    card_end(page, b"booked, less what was taken back")
}

/// Writes the booked payments.
#[tactic(auto, unfolding(crate::specs::PageCards::booked_card))]
fn booked_card(
    page: &mut Text,
    note: &mut Text,
    decimals: Decimals,
    book: &[Entry],
) -> Result<(), AllocError>
    ensures { OnOk result (page.new ≡ page.old ++ render (booked_card decimals book.now)) }
{
    card_start(page, b"", b"Payments")?;
    amount_value(page, note, decimals, b"", booked_total(book))?;
    count_end(page, note, book.len(), b"booked payment")
}

/// Writes the payments that were taken back.
#[tactic(auto, unfolding(crate::specs::PageCards::taken_back_card))]
fn taken_back_card(
    page: &mut Text,
    note: &mut Text,
    decimals: Decimals,
    book: &[Entry],
) -> Result<(), AllocError>
    ensures { OnOk result (page.new ≡ page.old ++ render (taken_back_card decimals book.now)) }
{
    card_start(page, b"", b"Taken back")?;
    let taken = taken_back(book);
    amount_value(page, note, decimals, minus(taken), taken)?;
    count_end(page, note, reversed_count(book), b"reversal")
}

/// Returns the class of the unclear payments and reversals.
fn unclear_class(payments: usize, reversals: usize) -> &'static [u8]
    ensures { result.now ≡ unclear_class payments reversals }
{
    if payments == 0 && reversals == 0 {
        b""
    } else {
        b"act"
    }
}

/// Writes how many payments and reversals are unclear.
fn unclear_note(text: &mut Text, payments: usize, reversals: usize) -> Result<(), AllocError>
    ensures { OnOk result (text.new ≡ text.old ++ unclear_note payments reversals) }
{
    count(text, payments, b"payment")?;
    text.word(b", ")?;
    count(text, reversals, b"reversal")
}

/// Writes how many payments and reversals are unclear, and the end of their figure.
fn unclear_end(
    page: &mut Text,
    note: &mut Text,
    payments: usize,
    reversals: usize,
) -> Result<(), AllocError>
    ensures { OnOk result (page.new ≡ page.old
        ++ (render (leaf Element.Dd [] (unclear_note payments reversals)) ++ end_tag Element.Div)) }
{
    note.clear();
    unclear_note(note, payments, reversals)?;
    card_end(page, note.bytes())
}

/// Writes the unclear payments and reversals.
#[tactic(auto, unfolding(crate::specs::PageCards::unclear_card))]
fn unclear_card(
    page: &mut Text,
    note: &mut Text,
    decimals: Decimals,
    book: &[Entry],
    unclear: &[(Amount, Cause)],
) -> Result<(), AllocError>
    ensures { OnOk result (page.new ≡ page.old ++ render (unclear_card decimals book.now unclear.now)) }
{
    let reversals = unclear_reversals(book);
    card_start(page, unclear_class(unclear.len(), reversals), b"Unclear")?;
    amount_value(page, note, decimals, b"", unclear_total(unclear))?;
    unclear_end(page, note, unclear.len(), reversals)
}

/// Writes how many other orders move money.
#[tactic(auto, unfolding(crate::specs::PageCards::others_card))]
fn others_card(
    page: &mut Text,
    note: &mut Text,
    messages: &[OrderMessage],
    books: &DayBooks,
) -> Result<(), AllocError>
    ensures { OnOk result (page.new ≡ page.old ++ render (others_card messages.now books.now)) }
{
    card_start(page, b"", b"Other orders")?;
    note.clear();
    count(note, others(books.orders.as_slice(), messages), b"order")?;
    leaf(page, Element::Dd, b"", note.bytes())?;
    card_end(page, b"that move money, in no total")
}

/// Writes the summary of a day.
#[tactic(auto, unfolding(crate::specs::PageCards::cards))]
pub(crate) fn cards(
    page: &mut Text,
    note: &mut Text,
    decimals: Decimals,
    books: &DayBooks,
    messages: &[OrderMessage],
) -> Result<(), AllocError>
    ensures { OnOk result (page.new ≡ page.old ++ render (cards decimals books.now messages.now)) }
{
    let book = books.book.as_slice();
    start(page, Element::Dl, b"cards", None)?;
    net_card(page, note, decimals, book)?;
    booked_card(page, note, decimals, book)?;
    taken_back_card(page, note, decimals, book)?;
    unclear_card(page, note, decimals, book, books.unclear.as_slice())?;
    others_card(page, note, messages, books)?;
    end(page, Element::Dl)
}
