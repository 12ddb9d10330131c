//! The text of bytes.
ghost use Rattle.std.specs.Prelude.{◌≡◌, ◌≤◌, length, take};
ghost use Rattle.zvt_text.specs.Writing.{Puts};
ghost use Rattle.zvt_text.specs.Bytes.{escaped, escaped_text, hex_or_dash, is_plain, quoted};
ghost use Rattle.zvt_text.specs.Secrets.{hidden_text};

use crate::cursor::{Full, byte, decimal, fixed, hexadecimal, push, word};

/// The bytes in hexadecimal, or a dash.
pub(crate) fn bytes_or_dash(buffer: &mut [u8], at: usize, bytes: &[u8]) -> Result<usize, Full>
    requires { at ≤ length buffer.old }
    ensures { Puts result at buffer.old buffer.new (hex_or_dash bytes.now) }
{
    if bytes.is_empty() {
        return push(buffer, at, b'-');
    }
    hexadecimal(buffer, at, bytes)
}

/// The size of bytes that are hidden.
pub(crate) fn hidden(buffer: &mut [u8], at: usize, bytes: &[u8]) -> Result<usize, Full>
    requires { at ≤ length buffer.old }
    ensures { Puts result at buffer.old buffer.new (hidden_text bytes.now) }
{
    let at = fixed(buffer, at, *b"hidden ")?;
    let size = bytes.len() as u64;
    decimal(buffer, at, size)
}

/// The bytes between quotation marks, with escapes.
pub(crate) fn quote(buffer: &mut [u8], at: usize, bytes: &[u8]) -> Result<usize, Full>
    requires { at ≤ length buffer.old }
    ensures { Puts result at buffer.old buffer.new (quoted bytes.now) }
{
    let at = push(buffer, at, b'"')?;
    let at = escape_all(buffer, at, bytes)?;
    push(buffer, at, b'"')
}

/// Bytes with escapes, those that are as they are in one word with their neighbours.
pub(crate) fn escape_all(buffer: &mut [u8], at: usize, bytes: &[u8]) -> Result<usize, Full>
    requires { at ≤ length buffer.old }
    ensures { Puts result at buffer.old buffer.new (escaped_text bytes.now) }
{
    let mut end = at;
    let mut rest = bytes;
    'runs: loop {
        let (plain, after) = rest.split_at(plain_first(rest));
        end = word(buffer, end, plain)?;
        let [other, trailing @ ..] = after else {
            return Ok(end);
        };
        end = escape(buffer, end, *other)?;
        rest = trailing;
    }
}

/// Returns the number of bytes at the beginning of a text that need no escape.
#[inline(always)]
pub fn plain_first(bytes: &[u8]) -> usize
    ensures few { result ≤ length bytes.now }
    ensures plain { escaped_text (take result bytes.now) ≡ take result bytes.now }
{
    let mut count = 0;
    while count < bytes.len() && is_plain(bytes[count]) {
        count += 1;
    }
    count
}

/// One byte, as it is or as an escape.
pub(crate) fn escape(buffer: &mut [u8], at: usize, character: u8) -> Result<usize, Full>
    requires { at ≤ length buffer.old }
    ensures { Puts result at buffer.old buffer.new (escaped character) }
{
    if is_plain(character) {
        return push(buffer, at, character);
    }
    let at = fixed(buffer, at, *b"\\x")?;
    byte(buffer, at, character)
}

/// Returns whether a byte of a text needs no escape.
pub fn is_plain(character: u8) -> bool
    ensures { result ≡ is_plain character }
{
    character >= 0x20 && character <= 0x7E && character != b'"' && character != b'\\'
}
