//! The card of an order, as a status information of the terminal names it.
ghost use Rattle.std.specs.Prelude.{◌≡◌, ◌≤◌, length};
ghost use Rattle.std.specs.List.{list_all, list_any};
ghost use Rattle.std.specs.Option.{option_and_then, option_copied};
ghost use Rattle.zvt_report.specs.Cards.{begins_filler, card_in, card_number, digits_by, digits_in, is_character};
ghost use Rattle.zvt_report.specs.Cards.{is_filled, is_filler, is_masked, is_shown, is_within, known_card, name_of};
ghost use Rattle.zvt_report.specs.Cards.{number_of, one_if, padded, type_of};

use zvt_text::card_type_name;

/// The digit that stands for a hidden digit of a card number.
pub(crate) const MASK: u8 = 14;

/// The card of an order.
#[derive(Clone, Copy)]
pub struct Card {
    /// The type in BMP 8A, if it has a name.
    pub card_type: Option<u8>,
    /// The name in BMP 8B, with zeros after it. A name of more than 24 bytes is not kept: the name of the type stands
    /// for it.
    pub name: Option<[u8; 24]>,
    /// The number in BMP 22, with the filler F after it. A number without at least four masks E, or with more than ten
    /// other digits, is not kept.
    pub number: Option<[u8; 10]>,
}

/// Returns 1 if this holds, and 0 otherwise.
fn one_if(holds: bool) -> usize
    ensures { result ≡ one_if holds }
{
    if holds { 1 } else { 0 }
}

/// Whether a digit is from this one to that one.
fn is_within(least: u8, most: u8, digit: u8) -> bool
    ensures { result ≡ is_within least most digit }
{
    least <= digit && digit <= most
}

/// Returns how many of the two digits of a byte are from this one to that one.
fn digits_by(least: u8, most: u8, byte: u8) -> usize
    ensures value { result ≡ digits_by least most byte }
    ensures few { result ≤ 2 }
{
    one_if(is_within(least, most, byte / 16)) + one_if(is_within(least, most, byte % 16))
}

/// Returns how many digits of a number are from this one to that one.
fn digits_in(least: u8, most: u8, number: &[u8]) -> usize
    requires { length number.now ≤ 10 }
    ensures { result ≡ digits_in least most number.now }
{
    let mut count = 0;
    for byte in number {
        count += digits_by(least, most, *byte);
    }
    count
}

/// Whether a digit of a card number is a decimal digit or the mask.
fn is_shown(digit: u8) -> bool
    ensures { result ≡ is_shown digit }
{
    digit <= 9 || digit == MASK
}

/// Whether a byte of a card number is filler alone.
fn is_filler(byte: u8) -> bool
    ensures { result ≡ is_filler byte }
{
    byte == 0xFF
}

/// Whether all these bytes are filler.
fn are_filler(bytes: &[u8]) -> bool
    ensures { result ≡ list_all is_filler bytes.now }
{
    bytes.iter().all(|byte| is_filler(*byte))
}

/// Whether the filler may begin in this byte.
fn begins_filler(byte: u8) -> bool
    ensures { result ≡ begins_filler byte }
{
    is_shown(byte / 16) || is_filler(byte)
}

/// Whether a card number has decimal digits and masks, and the filler at its end alone.
fn is_filled(number: &[u8]) -> bool
    ensures { result ≡ is_filled number.now }
{
    let mut rest = number;
    'bytes: while let [byte, later @ ..] = rest {
        if *byte % 16 == 15 {
            return begins_filler(*byte) && are_filler(later);
        }
        if !is_shown(*byte / 16) || !is_shown(*byte % 16) {
            return false;
        }
        rest = later;
    }
    true
}

/// Whether a card number hides at least four of its digits and shows at most ten.
fn is_masked(number: &[u8]) -> bool
    ensures { result ≡ is_masked number.now }
{
    number.len() <= 10
        && is_filled(number)
        && 4 <= digits_in(MASK, MASK, number)
        && digits_in(0, 9, number) <= 10
}

/// Returns an array of these bytes, with others after them.
fn padded<const N: usize>(filler: u8, bytes: &[u8]) -> [u8; N]
    requires { length bytes.now ≤ N }
    ensures { result ≡ padded N filler bytes.now }
{
    let mut array = [filler; N];
    array[..bytes.len()].copy_from_slice(bytes);
    array
}

/// Returns a card number, if it is masked.
fn number_of(bytes: &[u8]) -> Option<[u8; 10]>
    ensures { result ≡ number_of bytes.now }
{
    if is_masked(bytes) {
        Some(padded(0xFF, bytes))
    } else {
        None
    }
}

/// Whether a byte of a text stands for a character.
pub(crate) fn is_character(byte: u8) -> bool
    ensures { result ≡ is_character byte }
{
    byte >= 0x20 && byte != 0x7F
}

/// Whether a text has a character.
fn has_character(bytes: &[u8]) -> bool
    ensures { result ≡ list_any is_character bytes.now }
{
    bytes.iter().any(|byte| is_character(*byte))
}

/// Returns a name, if it has at most 24 bytes and a character.
fn name_of(bytes: &[u8]) -> Option<[u8; 24]>
    ensures { result ≡ name_of bytes.now }
{
    if bytes.len() <= 24 && has_character(bytes) {
        Some(padded(0, bytes))
    } else {
        None
    }
}

/// Returns the type of a card, if it has a name.
fn type_of(bytes: &[u8]) -> Option<u8>
    ensures { result ≡ type_of bytes.now }
{
    let [card_type] = bytes else {
        return None;
    };
    card_type_name(*card_type)?;
    Some(*card_type)
}

/// Returns a card, if anything about it is known.
fn known_card(
    card_type: Option<u8>,
    name: Option<[u8; 24]>,
    number: Option<[u8; 10]>,
) -> Option<Card>
    ensures { result ≡ known_card card_type name number }
{
    match (card_type, name, number) {
        (None, None, None) => None,
        _ => Some(Card {
            card_type,
            name,
            number,
        }),
    }
}

/// Returns the type in the content of BMP 8A.
fn type_in(content: Option<&[u8]>) -> Option<u8>
    ensures { result ≡ option_and_then type_of (option_copied content.entry) }
{
    type_of(content?)
}

/// Returns the name in the content of BMP 8B.
fn name_in(content: Option<&[u8]>) -> Option<[u8; 24]>
    ensures { result ≡ option_and_then name_of (option_copied content.entry) }
{
    name_of(content?)
}

/// Returns the masked number in the content of BMP 22.
fn number_in(content: Option<&[u8]>) -> Option<[u8; 10]>
    ensures { result ≡ option_and_then number_of (option_copied content.entry) }
{
    number_of(content?)
}

/// Returns the card that the contents of BMP 8A, 8B and 22 name.
pub(crate) fn card_in(
    card_type: Option<&[u8]>,
    name: Option<&[u8]>,
    number: Option<&[u8]>,
) -> Option<Card>
    ensures { result ≡ card_in (option_copied card_type.entry) (option_copied name.entry)
        (option_copied number.entry) }
{
    known_card(type_in(card_type), name_in(name), number_in(number))
}

/// Returns the masked number of a card, if it has one.
pub(crate) fn card_number(card: &Option<Card>) -> Option<[u8; 10]>
    ensures { result ≡ card_number card.now }
{
    match card {
        Some(card) => card.number,
        None => None,
    }
}
