//! Text in a buffer of fixed size. Each function writes at an index and returns the index after the text.
ghost use Rattle.std.specs.Prelude.{◌+◌, ◌∷◌, ◌≤◌, [], length, replicate};
ghost use Rattle.hex.specs.Hex.{encode_upper};
ghost use Rattle.zvt_text.specs.Bytes.{hex_of};
ghost use Rattle.zvt_text.specs.MessageTexts.{four_digits};
ghost use Rattle.zvt_text.specs.Writing.{Puts};

use crate::digits::{digits, write_digits};
use itoa::{Buffer, Integer};

/// The buffer is full.
#[derive(Drop)]
pub struct Full;

/// Writes one ASCII character.
#[inline(always)]
pub fn push(buffer: &mut [u8], at: usize, character: u8) -> Result<usize, Full>
    requires { at ≤ length buffer.old }
    ensures { Puts result at buffer.old buffer.new (character ∷ []) }
{
    if at == buffer.len() {
        return Err(Full);
    }
    buffer[at] = character;
    Ok(at + 1)
}

/// Writes a word.
#[inline(always)]
pub fn word(buffer: &mut [u8], at: usize, word: &[u8]) -> Result<usize, Full>
    requires { at ≤ length buffer.old }
    ensures { Puts result at buffer.old buffer.new word.now }
{
    if buffer.len() - at < word.len() {
        return Err(Full);
    }
    let end = at + word.len();
    buffer[at..end].copy_from_slice(word);
    Ok(end)
}

/// Writes a word that the code names. It is passed by value, since then it is stored at once: of a slice the compiler
/// does not know that it lies outside of the buffer.
#[inline(always)]
pub fn fixed<const N: usize>(buffer: &mut [u8], at: usize, letters: [u8; N]) -> Result<usize, Full>
    requires { at ≤ length buffer.old }
    ensures { Puts result at buffer.old buffer.new letters.entry }
{
    word(buffer, at, letters.as_slice())
}

/// Writes two hexadecimal digits for each byte.
#[inline(always)]
pub fn hexadecimal(buffer: &mut [u8], at: usize, bytes: &[u8]) -> Result<usize, Full>
    requires { at ≤ length buffer.old }
    ensures { Puts result at buffer.old buffer.new (encode_upper bytes.now) }
{
    if (buffer.len() - at) / 2 < bytes.len() {
        return Err(Full);
    }
    let end = at + 2 * bytes.len();
    write_digits(bytes, &mut buffer[at..end]);
    Ok(end)
}

/// Writes one byte in hexadecimal.
#[inline(always)]
pub fn byte(buffer: &mut [u8], at: usize, byte: u8) -> Result<usize, Full>
    requires { at ≤ length buffer.old }
    ensures { Puts result at buffer.old buffer.new (hex_of byte) }
{
    word(buffer, at, &digits(byte))
}

/// Writes a number of at most four digits in four decimal digits.
pub fn four_digits(buffer: &mut [u8], at: usize, number: u16) -> Result<usize, Full>
    requires digits { number ≤ 9999 }
    requires inside { at ≤ length buffer.old }
    ensures { Puts result at buffer.old buffer.new (four_digits number) }
{
    let at = digit(buffer, at, number / 1000 % 10)?;
    let at = digit(buffer, at, number / 100 % 10)?;
    let at = digit(buffer, at, number / 10 % 10)?;
    digit(buffer, at, number % 10)
}

fn digit(buffer: &mut [u8], at: usize, value: u16) -> Result<usize, Full>
    requires digit { value ≤ 9 }
    requires inside { at ≤ length buffer.old }
    ensures { Puts result at buffer.old buffer.new ((48 + value) ∷ []) }
{
    push(buffer, at, b'0' + value as u8)
}

/// Writes a number in decimal digits.
pub fn decimal<I: Integer>(buffer: &mut [u8], at: usize, number: I) -> Result<usize, Full>
    requires { at ≤ length buffer.old }
    ensures { Puts result at buffer.old buffer.new (I.text number) }
{
    word(buffer, at, Buffer::new().format(number).as_bytes())
}

/// Writes a character that many times.
pub(crate) fn repeat(
    buffer: &mut [u8],
    at: usize,
    character: u8,
    count: usize,
) -> Result<usize, Full>
    requires { at ≤ length buffer.old }
    ensures { Puts result at buffer.old buffer.new (replicate count character) }
{
    let mut end = at;
    for _ in 0..count {
        end = push(buffer, end, character)?;
    }
    Ok(end)
}
