//! The values of fields whose content is bytes.
ghost use Rattle.std.specs.Prelude.{◌≡◌, ◌≤◌, length};
ghost use Rattle.zvt_bcd.specs.Digits.{number_of};
ghost use Rattle.zvt_field.specs.Views.{PlainBytes};
ghost use Rattle.zvt_text.specs.Lines.{noted_value, result_text, value_text};
ghost use Rattle.zvt_text.specs.Writing.{Puts};

use crate::bytes::{bytes_or_dash, hidden, quote};
use crate::cursor::{Full, decimal};
use crate::notes::{noted, value_note};
use crate::text_options::TextOptions;
use crate::write::put_result;
use zvt_bcd::number;
use zvt_field::{Format, format};

/// The value of a field, and its words in an explained text.
#[inline(always)]
pub(crate) fn noted_value(
    buffer: &mut [u8],
    at: usize,
    options: TextOptions,
    bmp: u8,
    content: &[u8],
) -> Result<usize, Full>
    requires plain { PlainBytes bmp content.now }
    requires inside { at ≤ length buffer.old }
    ensures { Puts result at buffer.old buffer.new (noted_value options bmp content.now) }
{
    let at = value(buffer, at, bmp, content)?;
    if options.explained {
        noted(buffer, at, value_note(bmp, content))
    } else {
        Ok(at)
    }
}

/// An amount in its smallest unit, a result in words, quoted text, the size of what is hidden, or bytes in hexadecimal.
fn value(buffer: &mut [u8], at: usize, bmp: u8, content: &[u8]) -> Result<usize, Full>
    requires plain { PlainBytes bmp content.now }
    requires inside { at ≤ length buffer.old }
    ensures { Puts result at buffer.old buffer.new (value_text bmp content.now) }
{
    match format(bmp) {
        Format::Amount => {
            let units = units(content);
            decimal(buffer, at, units)
        }
        Format::Result => outcome(buffer, at, content),
        Format::Text => quote(buffer, at, content),
        Format::Hidden => hidden(buffer, at, content),
        Format::Bytes => bytes_or_dash(buffer, at, content),
    }
}

/// The units of an amount.
fn units(content: &[u8]) -> u64
    requires { PlainBytes 0x04 content.now }
    ensures { result ≡ number_of content.now }
{
    number(content)
}

fn outcome(buffer: &mut [u8], at: usize, content: &[u8]) -> Result<usize, Full>
    requires { at ≤ length buffer.old }
    ensures { Puts result at buffer.old buffer.new (result_text content.now) }
{
    match content {
        [code] => put_result(buffer, at, *code),
        _ => bytes_or_dash(buffer, at, content),
    }
}
