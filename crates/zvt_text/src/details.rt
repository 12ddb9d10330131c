//! The first line of a message after its name: one item for each part that the message has.
ghost use Rattle.std.specs.Prelude.{◌≤◌, ◌∷◌, length};
ghost use Rattle.std.specs.Option.{option_copied};
ghost use Rattle.hex.specs.Hex.{encode_upper};
ghost use Rattle.zvt_text.specs.MessageTexts.{config_text, data_text, hex_part, named_currency, part_text, quoted_part};
ghost use Rattle.zvt_text.specs.MessageTexts.{hidden_data, unknown_text, words_part};
ghost use Rattle.zvt_text.specs.Writing.{Puts};

use crate::bytes::{hidden, quote};
use crate::cursor::{Full, byte, fixed, four_digits, hexadecimal, push};
use crate::text_options::TextOptions;
use crate::write::put_result;
use zvt_bcd::Currency;

/// The payload, if there is any.
#[inline(always)]
pub(crate) fn data(buffer: &mut [u8], at: usize, payload: Option<&[u8]>) -> Result<usize, Full>
    requires { at ≤ length buffer.old }
    ensures { Puts result at buffer.old buffer.new (part_text data_text (option_copied payload.entry)) }
{
    match payload {
        Some(payload) => payload_data(buffer, at, payload),
        None => Ok(at),
    }
}

fn payload_data(buffer: &mut [u8], at: usize, payload: &[u8]) -> Result<usize, Full>
    requires { at ≤ length buffer.old }
    ensures { Puts result at buffer.old buffer.new (data_text payload.now) }
{
    if payload.is_empty() {
        return Ok(at);
    }
    let at = fixed(buffer, at, *b" data ")?;
    hexadecimal(buffer, at, payload)
}

/// The payload of a message outside the profile, if there is any: a safe text has only its size.
pub(crate) fn unknown(
    buffer: &mut [u8],
    at: usize,
    options: TextOptions,
    payload: Option<&[u8]>,
) -> Result<usize, Full>
    requires { at ≤ length buffer.old }
    ensures { Puts result at buffer.old buffer.new (part_text (unknown_text options) (option_copied payload.entry)) }
{
    let Some(payload) = payload else {
        return Ok(at);
    };
    if options.safe {
        payload_size(buffer, at, payload)
    } else {
        payload_data(buffer, at, payload)
    }
}

fn payload_size(buffer: &mut [u8], at: usize, payload: &[u8]) -> Result<usize, Full>
    requires { at ≤ length buffer.old }
    ensures { Puts result at buffer.old buffer.new (hidden_data payload.now) }
{
    if payload.is_empty() {
        return Ok(at);
    }
    let at = fixed(buffer, at, *b" data ")?;
    hidden(buffer, at, payload)
}

/// A code, a status or an attribute, in hexadecimal.
#[inline(always)]
pub(crate) fn byte_part(buffer: &mut [u8], at: usize, part: Option<u8>) -> Result<usize, Full>
    requires { at ≤ length buffer.old }
    ensures { Puts result at buffer.old buffer.new (part_text hex_part part) }
{
    let Some(part) = part else {
        return Ok(at);
    };
    let at = push(buffer, at, b' ')?;
    byte(buffer, at, part)
}

/// A result code, in words.
pub(crate) fn outcome(buffer: &mut [u8], at: usize, code: Option<u8>) -> Result<usize, Full>
    requires { at ≤ length buffer.old }
    ensures { Puts result at buffer.old buffer.new (part_text words_part code) }
{
    let Some(code) = code else {
        return Ok(at);
    };
    let at = push(buffer, at, b' ')?;
    put_result(buffer, at, code)
}

/// A quoted line.
pub(crate) fn printed(buffer: &mut [u8], at: usize, line: Option<&[u8]>) -> Result<usize, Full>
    requires { at ≤ length buffer.old }
    ensures { Puts result at buffer.old buffer.new (part_text quoted_part (option_copied line.entry)) }
{
    let Some(line) = line else {
        return Ok(at);
    };
    let at = push(buffer, at, b' ')?;
    quote(buffer, at, line)
}

/// The control field.
pub(crate) fn control(buffer: &mut [u8], at: usize, control: [u8; 2]) -> Result<usize, Full>
    requires { at ≤ length buffer.old }
    ensures { Puts result at buffer.old buffer.new (32 ∷ encode_upper control) }
{
    let at = push(buffer, at, b' ')?;
    hexadecimal(buffer, at, control.as_slice())
}

/// Returns the configuration byte of a registration.
pub(crate) fn config(buffer: &mut [u8], at: usize, config: Option<u8>) -> Result<usize, Full>
    requires { at ≤ length buffer.old }
    ensures { Puts result at buffer.old buffer.new (part_text config_text config) }
{
    let Some(config) = config else {
        return Ok(at);
    };
    let at = fixed(buffer, at, *b" config ")?;
    byte(buffer, at, config)
}

/// The currency of a registration.
pub(crate) fn currency(
    buffer: &mut [u8],
    at: usize,
    currency: Option<Currency>,
) -> Result<usize, Full>
    requires { at ≤ length buffer.old }
    ensures { Puts result at buffer.old buffer.new (part_text named_currency currency) }
{
    let Some(currency) = currency else {
        return Ok(at);
    };
    let at = fixed(buffer, at, *b" currency ")?;
    four_digits(buffer, at, currency.get())
}
