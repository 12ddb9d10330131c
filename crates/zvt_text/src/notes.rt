//! What an explained text adds to a line.
ghost use Rattle.std.specs.Prelude.{◌≡◌, ◌≤◌, length, option_map};
ghost use Rattle.std.specs.Option.{option_copied};
ghost use Rattle.zvt_text.specs.Notes.{head_note, noted, value_note};
ghost use Rattle.zvt_text.specs.Writing.{Puts};

use crate::cursor::{Full, fixed, push, word};
use crate::meanings::{card_type_name, command_name, status_words, unprinted_meaning};
use zvt_apdu::{ApduView, Kind};
use zvt_field::{Format, format};

/// Writes words in parentheses, if there are some.
pub(crate) fn noted(buffer: &mut [u8], at: usize, words: Option<&str>) -> Result<usize, Full>
    requires { at ≤ length buffer.old }
    ensures { Puts result at buffer.old buffer.new (noted (option_copied words.entry)) }
{
    match words {
        Some(words) => {
            let at = fixed(buffer, at, *b" (")?;
            let at = word(buffer, at, words.as_bytes())?;
            push(buffer, at, b')')
        }
        None => Ok(at),
    }
}

/// Returns the words of a message's first line.
pub(crate) fn head_note(message: &ApduView<'_>) -> Option<&'static str>
    ensures { option_map (λ words. words.now) result ≡ head_note message.now }
{
    match message.kind() {
        Kind::Intermediate => status_words(message.status()?),
        Kind::Abort => unprinted_meaning(message.code()?),
        Kind::Other => {
            let [high, low] = message.control();
            command_name(high, low)
        }
        _ => None,
    }
}

/// Returns the words of a field whose content is bytes.
pub(crate) fn value_note(bmp: u8, content: &[u8]) -> Option<&'static str>
    ensures { option_map (λ words. words.now) result ≡ value_note bmp content.now }
{
    match (format(bmp), content) {
        (Format::Result, [code]) => unprinted_meaning(*code),
        (Format::Bytes, [card_type]) if bmp == 0x8A => card_type_name(*card_type),
        _ => None,
    }
}
