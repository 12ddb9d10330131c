//! The characters inside a JSON string.
ghost use Rattle.std.specs.Prelude.{◌≡◌, ◌≤◌, length};
ghost use Rattle.hex.specs.Hex.{encode_upper};
ghost use Rattle.json.specs.Print.{escape};
ghost use Rattle.zvt_text.specs.Bytes.{escaped, escaped_text, hex_of};
ghost use Rattle.zvt_text.specs.Writing.{Puts};
ghost use Rattle.zvt_json.specs.Texts.{shut};

use zvt_text::cursor::{self, Full, fixed, hexadecimal, push, word};
use zvt_text::{is_plain, plain_first};

/// Writes one byte in hexadecimal, and the quotation mark after it.
#[inline(always)]
pub(crate) fn byte(buffer: &mut [u8], at: usize, byte: u8) -> Result<usize, Full>
    requires { at ≤ length buffer.old }
    ensures { Puts result at buffer.old buffer.new (shut (hex_of byte)) }
{
    let at = cursor::byte(buffer, at, byte)?;
    push(buffer, at, b'"')
}

/// Writes bytes in hexadecimal, and the quotation mark after them.
#[inline(always)]
pub(crate) fn bytes(buffer: &mut [u8], at: usize, bytes: &[u8]) -> Result<usize, Full>
    requires { at ≤ length buffer.old }
    ensures { Puts result at buffer.old buffer.new (shut (encode_upper bytes.now)) }
{
    let at = hexadecimal(buffer, at, bytes)?;
    push(buffer, at, b'"')
}

/// Writes bytes as the text output shows them between quotation marks, and the quotation mark after them.
pub(crate) fn text(buffer: &mut [u8], at: usize, bytes: &[u8]) -> Result<usize, Full>
    requires { at ≤ length buffer.old }
    ensures { Puts result at buffer.old buffer.new (shut (escaped_text bytes.now)) }
{
    let at = escape_all(buffer, at, bytes)?;
    push(buffer, at, b'"')
}

/// Writes bytes with escapes, in which each backslash is doubled.
fn escape_all(buffer: &mut [u8], at: usize, bytes: &[u8]) -> Result<usize, Full>
    requires { at ≤ length buffer.old }
    ensures { Puts result at buffer.old buffer.new (escape (escaped_text bytes.now)) }
{
    let mut end = at;
    let mut rest = bytes;
    'runs: loop {
        let (plain, after) = rest.split_at(plain_first(rest));
        end = word(buffer, end, plain)?;
        let [other, trailing @ ..] = after else {
            return Ok(end);
        };
        end = one(buffer, end, *other)?;
        rest = trailing;
    }
}

/// Writes one byte of a text.
fn one(buffer: &mut [u8], at: usize, character: u8) -> Result<usize, Full>
    requires { at ≤ length buffer.old }
    ensures { Puts result at buffer.old buffer.new (escape (escaped character)) }
{
    if is_plain(character) {
        return push(buffer, at, character);
    }
    let at = fixed(buffer, at, *b"\\\\x")?;
    cursor::byte(buffer, at, character)
}
