//! Bytes spelled as hexadecimal text with spaces.
ghost use Rattle.std.specs.Prelude.{◌≡◌, ◌≢◌, ◌*◌, ◌+◌, ◌++◌, ◌<◌, ◌≤◌, ℕ, List, length, slice_index, take, false};
ghost use Rattle.std.specs.Prelude.{true, IfOk, IfSome, IsErr, MatchOption, None, Ok};
ghost use Rattle.hex.specs.Hex.{decode_of};
ghost use Rattle.zvt_trace.specs.Meanings.{EndsPairs, ReadsPairs, SpellsBytes, without_spaces};
ghost use Rattle.zvt_trace.specs.Spelled.{AreHex, IsDigit, after_bytes, spells, worth};

use hex::FromHexError;
use std::alloc::{AllocError, Global};

/// Reads bytes into the buffer until it is full or the text ends. Returns the number of bytes and the remaining text,
/// or `None` if the text up to there is not hexadecimal.
#[inline(always)]
pub(crate) fn read<'t>(text: &'t [u8], buffer: &mut [u8]) -> Option<(usize, &'t [u8])>
    ensures read { MatchOption result (spells (without_spaces text.now) ≡ None)
        (λ read. after_bytes (take read.0 buffer.new) (spells (without_spaces read.1.now)) ≡ spells
        (without_spaces text.now)) }
    ensures few { IfSome result (λ read. (read.0 ≤ length buffer.new)
        × (2 * read.0 + length read.1.now ≤ length text.now)) }
    ensures full { IfSome result (λ read. 0 < length read.1.now → read.0 ≡ length buffer.old) }
    ensures size { length buffer.new ≡ length buffer.old }
{
    let prefix = skip_spaces(text);
    let mut count = read_pairs(prefix, buffer);
    let mut rest = skip_spaces(&prefix[2 * count..]);
    'pairs: while count < buffer.len() {
        let [high, after @ ..] = rest else {
            return Some((count, rest));
        };
        let [low, after @ ..] = skip_spaces(after) else {
            return None;
        };
        let high = value(*high);
        let low = value(*low);
        if high > 15 || low > 15 {
            return None;
        }
        buffer[count] = (high * 16 + low) as u8;
        count += 1;
        rest = skip_spaces(after);
    }
    Some((count, rest))
}

/// Returns the bytes that the text spells, or `None` if it is not hexadecimal.
pub fn spelled_bytes(alloc: Global, text: &[u8]) -> Result<Option<Vec<u8>>, AllocError>
    ensures { IfOk result (λ found. MatchOption found (IsErr (decode_of (without_spaces text.now)))
        (λ bytes. decode_of (without_spaces text.now) ≡ Ok bytes.items)) }
{
    let digits: Vec<u8> = text
        .iter()
        .copied()
        .filter(|character| *character != b' ')
        .collect(alloc)?;
    match hex::decode(alloc, digits) {
        Ok(bytes) => Ok(Some(bytes)),
        Err(FromHexError::OutOfMemory) => Err(AllocError),
        Err(_) => Ok(None),
    }
}

/// Whether the text spells bytes.
pub(crate) fn is_spelled(text: &[u8]) -> bool
    ensures yes { result ≡ true → SpellsBytes text.now }
    ensures no { result ≡ false → spells (without_spaces text.now) ≡ None }
{
    if are_digits(text) {
        return text.len() % 2 == 0;
    }
    let mut buffer = [0; 64];
    let mut rest = text;
    'text: while !rest.is_empty() {
        let Some((_, undecoded)) = read(rest, &mut buffer) else {
            return false;
        };
        rest = undecoded;
    }
    true
}

/// Whether the text has only digits. The loop never ends early, so the compiler can look at many bytes at once.
fn are_digits(text: &[u8]) -> bool
    ensures { result ≡ true → AreHex text.now }
{
    let mut all = true;
    for byte in text {
        all &= byte.is_ascii_hexdigit();
    }
    all
}

/// Reads the first pairs of digits, up to a space or until the buffer is full. A line without spaces costs no test for
/// spaces.
#[inline(always)]
pub(crate) fn read_pairs(text: &[u8], buffer: &mut [u8]) -> usize
    ensures few { (2 * result ≤ length text.now) × (result ≤ length buffer.new) }
    ensures read { ReadsPairs text.now result buffer.new }
    ensures all { 2 * result + 1 < length text.now → result < length buffer.new → EndsPairs text.now result }
    ensures size { length buffer.new ≡ length buffer.old }
{
    let most = (text.len() / 2).min(buffer.len());
    let mut count = 0;
    'pairs: while count < most {
        let byte = pair(text[2 * count], text[2 * count + 1]);
        if byte > 255 {
            return count;
        }
        buffer[count] = byte as u8;
        count += 1;
    }
    count
}

/// Returns the text after its leading spaces.
#[inline(always)]
fn skip_spaces(text: &[u8]) -> &[u8]
    ensures same { without_spaces result.now ≡ without_spaces text.now }
    ensures none { slice_index result.now 0 ≢ 32 }
    ensures shorter { length result.now ≤ length text.now }
{
    let mut rest = text;
    'spaces: while let [b' ', after @ ..] = rest {
        rest = after;
    }
    rest
}

/// Returns the byte given by two digits, or a number above 255 if one of them is not a digit, so that one test covers
/// both.
#[inline(always)]
fn pair(high: u8, low: u8) -> u32
    ensures { result ≡ worth high * 16 + worth low }
{
    VALUES[high as usize] * 16 + VALUES[low as usize]
}

/// Returns the value of a digit, or a number above 15 for any other character.
#[inline(always)]
fn value(digit: u8) -> u32
    ensures { IsDigit digit result }
{
    VALUES[digit as usize]
}

/// The value of a character that is not a digit: more than any byte.
const NONE: u32 = 256;

/// The value of each digit, and [`NONE`] for every other character.
static VALUES: [u32; 256] = [
    NONE, NONE, NONE, NONE, NONE, NONE, NONE, NONE, NONE, NONE, NONE, NONE, NONE, NONE, NONE, NONE,
    NONE, NONE, NONE, NONE, NONE, NONE, NONE, NONE, NONE, NONE, NONE, NONE, NONE, NONE, NONE, NONE,
    NONE, NONE, NONE, NONE, NONE, NONE, NONE, NONE, NONE, NONE, NONE, NONE, NONE, NONE, NONE, NONE,
    0, 1, 2, 3, 4, 5, 6, 7, 8, 9, NONE, NONE, NONE, NONE, NONE, NONE, NONE, 10, 11, 12, 13, 14, 15,
    NONE, NONE, NONE, NONE, NONE, NONE, NONE, NONE, NONE, NONE, NONE, NONE, NONE, NONE, NONE, NONE,
    NONE, NONE, NONE, NONE, NONE, NONE, NONE, NONE, NONE, NONE, 10, 11, 12, 13, 14, 15, NONE, NONE,
    NONE, NONE, NONE, NONE, NONE, NONE, NONE, NONE, NONE, NONE, NONE, NONE, NONE, NONE, NONE, NONE,
    NONE, NONE, NONE, NONE, NONE, NONE, NONE, NONE, NONE, NONE, NONE, NONE, NONE, NONE, NONE, NONE,
    NONE, NONE, NONE, NONE, NONE, NONE, NONE, NONE, NONE, NONE, NONE, NONE, NONE, NONE, NONE, NONE,
    NONE, NONE, NONE, NONE, NONE, NONE, NONE, NONE, NONE, NONE, NONE, NONE, NONE, NONE, NONE, NONE,
    NONE, NONE, NONE, NONE, NONE, NONE, NONE, NONE, NONE, NONE, NONE, NONE, NONE, NONE, NONE, NONE,
    NONE, NONE, NONE, NONE, NONE, NONE, NONE, NONE, NONE, NONE, NONE, NONE, NONE, NONE, NONE, NONE,
    NONE, NONE, NONE, NONE, NONE, NONE, NONE, NONE, NONE, NONE, NONE, NONE, NONE, NONE, NONE, NONE,
    NONE, NONE, NONE, NONE, NONE, NONE, NONE, NONE, NONE, NONE, NONE, NONE, NONE, NONE, NONE, NONE,
    NONE, NONE, NONE, NONE, NONE, NONE, NONE, NONE, NONE, NONE, NONE, NONE, NONE, NONE, NONE, NONE,
    NONE, NONE, NONE, NONE, NONE, NONE, NONE,
];
