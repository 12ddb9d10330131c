//! The card of the last order, for the receipt that a till prints.
ghost use Rattle.std.specs.Prelude.{◌≡◌, ◌≤◌, ◌+◌, ◌++◌, Some, length, map, replicate};
ghost use Rattle.zvt_field.specs.Lent.{shown};
ghost use Rattle.zvt_field.specs.Named.{bytes_of};
ghost use Rattle.zvt_c.specs.Cards.{before_zero, content_in, digits_in, heard_card, masked, name_held, number_held};
ghost use Rattle.zvt_c.specs.Cards.{ordered_card, short, symbol};
ghost use Rattle.zvt_c.specs.Saving.{Written};

use crate::handle::ZvtTill;
use crate::records::put;
use arrayvec::ArrayVec;
use std::alloc::Global;
use std::marker::Model;
use zvt_apdu::{ApduView, Kind};
use zvt_field::{FieldView, FieldsView};
use zvt_till::Order;

/// The BMP of a card number.
const NUMBER: u8 = 0x22;

/// The BMP of a card's name.
const NAME: u8 = 0x8B;

/// Maximum size of the content of these BMPs.
const MAX_CONTENT_LEN: usize = 99;

/// The name and the masked number of a card.
#[derive(Drop)]
pub struct Card {
    name: ArrayVec<u8, 99>,
    number: ArrayVec<u8, 198>,
}

impl Model for Card {
    ghost use Rattle.std.specs.Prelude.{List, ℕ};
    ghost use Rattle.std.specs.Coded.{coded×, coded_list, coded_ℕ};

    ghost Value = { List ℕ × List ℕ };

    ghost coded = { coded× (coded_list coded_ℕ) (coded_list coded_ℕ) };

    ghost view = { λ card. (card.name.items, card.number.items) };
}

impl Card {
    ghost use Rattle.zvt_c.specs.Cards.{card_of, no_card};

    /// Returns a card without a name and a number.
    pub(crate) fn none() -> Card
        ensures { result ≡ no_card }
    {
        Card {
            name: ArrayVec::new(),
            number: ArrayVec::new(),
        }
    }

    /// Returns the card that the fields of a status information name.
    fn of(fields: &FieldsView<'_>) -> Card
        ensures { result ≡ card_of fields.now }
    {
        Card {
            name: name_in(content(fields, NAME)),
            number: number_in(content(fields, NUMBER)),
        }
    }

    /// Returns the name.
    fn name(&self) -> &[u8]
        ensures { result.now ≡ self.now.0 }
    {
        self.name.as_slice()
    }

    /// Returns the masked number.
    fn number(&self) -> &[u8]
        ensures { result.now ≡ self.now.1 }
    {
        self.number.as_slice()
    }
}

/// Takes the card that a status information names, if an order is running.
pub(crate) fn hear_card(card: &mut Card, running: bool, apdu: &ApduView<'_>)
    ensures { card.new ≡ heard_card running apdu.now card.old }
{
    match apdu.kind() {
        Kind::Status if running => {
            if let Some(fields) = apdu.fields() {
                *card = Card::of(&fields);
            }
        }
        _ => {}
    }
}

/// Replaces the card when an order is sent: each order but a cancellation begins without one.
pub(crate) fn order_card(card: &mut Card, order: &Order)
    ensures { card.new ≡ ordered_card order.now card.old }
{
    match order {
        Order::Cancel => {}
        _ => *card = Card::none(),
    }
}

/// Returns the content of the field with this BMP, if it appears exactly once, or no bytes.
fn content<'a>(fields: &FieldsView<'a>, bmp: u8) -> &'a [u8]
    ensures content { result.now ≡ content_in bmp fields.now }
    ensures few { length result.now ≤ 99 }
{
    match fields.only(bmp) {
        Some(field) => short(&field),
        None => &[],
    }
}

/// Returns the content of a field that is no container, if a length of two digits can have it.
fn short<'a>(field: &FieldView<'a>) -> &'a [u8]
    ensures content { result.now ≡ short (bytes_of (shown field.now)) }
    ensures few { length result.now ≤ 99 }
{
    match field.tree() {
        Some(_) => &[],
        None => short_bytes(field.content),
    }
}

/// Returns the bytes, or none if they are too many.
fn short_bytes(bytes: &[u8]) -> &[u8]
    ensures content { result.now ≡ short (Some bytes.now) }
    ensures few { length result.now ≤ 99 }
{
    if bytes.len() <= MAX_CONTENT_LEN {
        bytes
    } else {
        &[]
    }
}

/// Returns the name in the content of its field: the bytes before the first zero.
fn name_in(content: &[u8]) -> ArrayVec<u8, 99>
    requires { length content.now ≤ 99 }
    ensures { result.items ≡ before_zero content.now }
{
    let mut name = ArrayVec::new();
    for byte in content {
        if *byte == 0 {
            return name;
        }
        name.push(*byte);
    }
    name
}

/// Returns the masked number in the content of its field.
fn number_in(content: &[u8]) -> ArrayVec<u8, 198>
    requires { length content.now ≤ 99 }
    ensures { result.items ≡ masked (digits_in content.now) }
{
    let digits = digits_in(content);
    let digits = digits.as_slice();
    let between = digits.len().saturating_sub(10);
    let mut number = ArrayVec::new();
    add_symbols(&mut number, &digits[..digits.len().min(6)]);
    add_stars(&mut number, between);
    add_symbols(&mut number, &digits[digits.len().min(6 + between)..]);
    number
}

/// Returns the digits of a number: two in a byte, up to an F.
fn digits_in(content: &[u8]) -> ArrayVec<u8, 198>
    requires { length content.now ≤ 99 }
    ensures { result.items ≡ digits_in content.now }
{
    let mut digits = ArrayVec::new();
    for byte in content {
        if *byte / 16 == 15 {
            return digits;
        }
        digits.push(*byte / 16);
        if *byte % 16 == 15 {
            return digits;
        }
        digits.push(*byte % 16);
    }
    digits
}

/// Adds digits as characters.
fn add_symbols(text: &mut ArrayVec<u8, 198>, digits: &[u8])
    requires { length text.old.items + length digits.now ≤ 198 }
    ensures { text.new.items ≡ text.old.items ++ map symbol digits.now }
{
    for digit in digits {
        text.push(symbol(*digit));
    }
}

/// Adds asterisks.
fn add_stars(text: &mut ArrayVec<u8, 198>, count: usize)
    requires { length text.old.items + count ≤ 198 }
    ensures { text.new.items ≡ text.old.items ++ replicate count 42 }
{
    for _ in 0..count {
        text.push(b'*');
    }
}

/// Returns the character of a digit, or an asterisk.
fn symbol(digit: u8) -> u8
    ensures { result ≡ symbol digit }
{
    if digit < 10 { b'0' + digit } else { b'*' }
}

/// Writes the name of the card of the last order to the start of the buffer, and returns its size, or 0 if the terminal
/// named none. If the buffer is too small, nothing is written.
#[unsafe(no_mangle)]
pub extern "C" fn zvt_till_card_name(alloc: Global, till: &mut ZvtTill, buffer: &mut [u8]) -> usize
    ensures same { till.new.raw_handle.held ≡ till.old.raw_handle.held }
    ensures name { Written (name_held till.old.raw_handle.held) result buffer.old buffer.new }
{
    let Some(end) = till.take(alloc) else {
        return 0;
    };
    let size = put(end.card.name(), buffer);
    *till = ZvtTill::of(end);
    size
}

/// Writes the number of the card of the last order to the start of the buffer, and returns its size, or 0 if the
/// terminal named none. All digits but the first six and the last four are asterisks. If the buffer is too small,
/// nothing is written.
#[unsafe(no_mangle)]
pub extern "C" fn zvt_till_card_number(
    alloc: Global,
    till: &mut ZvtTill,
    buffer: &mut [u8],
) -> usize
    ensures same { till.new.raw_handle.held ≡ till.old.raw_handle.held }
    ensures number { Written (number_held till.old.raw_handle.held) result buffer.old buffer.new }
{
    let Some(end) = till.take(alloc) else {
        return 0;
    };
    let size = put(end.card.number(), buffer);
    *till = ZvtTill::of(end);
    size
}
