//! Writes the card of an order.
ghost use Rattle.std.specs.Prelude.{◌≡◌, ◌++◌, [], codes, OnOk, unwrap_or};
ghost use Rattle.std.specs.List.{list_any};
ghost use Rattle.serde_json.specs.Data.{string};
ghost use Rattle.serde_json.specs.Written.{compact_text};
ghost use Rattle.zvt_text.specs.Meanings.{card_type_name};
ghost use Rattle.zvt_report.specs.CardTexts.{card_or_dash, card_or_nothing, card_text, character_text, characters};
ghost use Rattle.zvt_report.specs.CardTexts.{digit_text, digits_text, hides, is_mask, last_digit, name_text};
ghost use Rattle.zvt_report.specs.CardTexts.{number_part, number_text, shown_digits};

use crate::cards::{Card, MASK, is_character};
use std::alloc::AllocError;
use zvt_text::{Text, card_type_name, hexadecimal, is_plain};

/// What comes before the hexadecimal digits of a byte that is no ASCII character.
const SLASH: &[u8] = b"\\x";

/// Writes a digit of a card number, and nothing for the filler.
fn digit(text: &mut Text, digit: u8) -> Result<(), AllocError>
    ensures { OnOk result (text.new ≡ text.old ++ digit_text digit) }
{
    if digit <= 9 {
        text.push(b'0' + digit)
    } else if digit == MASK {
        text.push(b'E')
    } else {
        Ok(())
    }
}

/// Writes both digits of a byte.
fn digits(text: &mut Text, byte: u8) -> Result<(), AllocError>
    ensures { OnOk result (text.new ≡ text.old ++ digits_text byte) }
{
    digit(text, byte / 16)?;
    digit(text, byte % 16)
}

/// Writes a card number as it was received.
fn number(text: &mut Text, bytes: &[u8]) -> Result<(), AllocError>
    ensures { OnOk result (text.new ≡ text.old ++ number_text bytes.now) }
{
    for byte in bytes {
        digits(text, *byte)?;
    }
    Ok(())
}

/// Whether a byte of a card number has a mask.
fn hides(byte: u8) -> bool
    ensures { result ≡ hides byte }
{
    byte / 16 == MASK || byte % 16 == MASK
}

/// Whether one of these bytes has a mask.
fn any_hides(bytes: &[u8]) -> bool
    ensures { result ≡ list_any hides bytes.now }
{
    bytes.iter().any(|byte| hides(*byte))
}

/// Writes the digit of a byte after its last mask.
fn last_digit(text: &mut Text, byte: u8) -> Result<(), AllocError>
    ensures { OnOk result (text.new ≡ text.old ++ last_digit byte) }
{
    if byte % 16 == MASK {
        return Ok(());
    }
    digit(text, byte % 16)
}

/// Writes the digit of a byte after its last mask, and the digits of later bytes.
fn last_digits(text: &mut Text, byte: u8, later: &[u8]) -> Result<(), AllocError>
    ensures { OnOk result (text.new ≡ text.old ++ (last_digit byte ++ number_text later.now)) }
{
    last_digit(text, byte)?;
    number(text, later)
}

/// Writes the digits of a card number after its last mask.
fn shown_digits(text: &mut Text, bytes: &[u8]) -> Result<(), AllocError>
    ensures { OnOk result (text.new ≡ text.old ++ shown_digits bytes.now) }
{
    let mut rest = bytes;
    'bytes: while let [byte, later @ ..] = rest {
        if !any_hides(later) {
            return last_digits(text, *byte, later);
        }
        rest = later;
    }
    Ok(())
}

/// Writes the digits of a masked number, if there is one.
fn number_part(text: &mut Text, number: &Option<[u8; 10]>) -> Result<(), AllocError>
    ensures { OnOk result (text.new ≡ text.old ++ number_part number.now) }
{
    match number {
        Some(number) => {
            text.word(b" ..")?;
            shown_digits(text, number.as_slice())
        }
        None => Ok(()),
    }
}

/// Writes a byte of a name: an ASCII character as it is, and any other in hexadecimal after `slash`.
fn character(text: &mut Text, slash: &[u8], byte: u8) -> Result<(), AllocError>
    ensures { OnOk result (text.new ≡ text.old ++ character_text slash.now byte) }
{
    if !is_character(byte) {
        return Ok(());
    }
    if is_plain(byte) {
        return text.push(byte);
    }
    text.word(slash)?;
    hexadecimal(text, &[byte])
}

/// Writes the characters of a name. `slash` comes before the hexadecimal digits of a byte that is no ASCII character.
fn characters(text: &mut Text, slash: &[u8], bytes: &[u8]) -> Result<(), AllocError>
    ensures { OnOk result (text.new ≡ text.old ++ characters slash.now bytes.now) }
{
    for byte in bytes {
        character(text, slash, *byte)?;
    }
    Ok(())
}

/// Returns the name of a card type.
pub(crate) fn type_words(card_type: u8) -> &'static str
    ensures { result.now ≡ unwrap_or (card_type_name card_type) [] }
{
    card_type_name(card_type).unwrap_or("")
}

/// Writes the name of a card, or else of its type.
fn name(text: &mut Text, card_type: &Option<u8>, name: &Option<[u8; 24]>) -> Result<(), AllocError>
    ensures { OnOk result (text.new ≡ text.old ++ name_text card_type.now name.now) }
{
    match (name, card_type) {
        (Some(name), _) => characters(text, SLASH, name.as_slice()),
        (None, Some(card_type)) => text.word(type_words(*card_type).as_bytes()),
        (None, None) => text.word(b"card"),
    }
}

/// Writes a card.
fn card_text(text: &mut Text, card: &Card) -> Result<(), AllocError>
    ensures { OnOk result (text.new ≡ text.old ++ card_text card.now) }
{
    name(text, &card.card_type, &card.name)?;
    number_part(text, &card.number)
}

/// Writes a card, and a dash if there is none.
#[tactic(auto, unfolding(crate::specs::CardTexts::card_or_dash))]
pub(crate) fn card_or_dash(text: &mut Text, card: &Option<Card>) -> Result<(), AllocError>
    ensures { OnOk result (text.new ≡ text.old ++ card_or_dash card.now) }
{
    match card {
        Some(card) => card_text(text, card),
        None => text.push(b'-'),
    }
}

/// Writes a card, if there is one.
#[tactic(auto, unfolding(crate::specs::CardTexts::card_or_nothing))]
pub(crate) fn card_or_nothing(text: &mut Text, card: &Option<Card>) -> Result<(), AllocError>
    ensures { OnOk result (text.new ≡ text.old ++ card_or_nothing card.now) }
{
    match card {
        Some(card) => card_text(text, card),
        None => Ok(()),
    }
}

/// Writes the name of a card between quotation marks. JSON doubles each backslash.
pub(crate) fn quoted_name(text: &mut Text, name: &[u8]) -> Result<(), AllocError>
    ensures { OnOk result (text.new ≡ text.old ++ compact_text (string (characters (codes "\\x") name.now))) }
{
    text.push(b'"')?;
    characters(text, b"\\\\x", name)?;
    text.push(b'"')
}

/// Writes a masked card number between quotation marks.
pub(crate) fn quoted_number(text: &mut Text, digits: &[u8]) -> Result<(), AllocError>
    ensures { OnOk result (text.new ≡ text.old ++ compact_text (string (number_text digits.now))) }
{
    text.push(b'"')?;
    number(text, digits)?;
    text.push(b'"')
}
