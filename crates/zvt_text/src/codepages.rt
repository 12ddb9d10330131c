//! The text of a receipt, by its code page.
ghost use Rattle.std.specs.Prelude.{◌≡◌, ◌≤◌, length};
ghost use Rattle.std.specs.Char.{encode_utf8};
ghost use Rattle.zvt_text.specs.Codepages.{ascii, decoded_by, decoded_byte, decoded_character, decoded_utf8, text_by};
ghost use Rattle.zvt_text.specs.Writing.{Puts};

use crate::bytes::{escape, escape_all};
use crate::cursor::{Full, push, word};
use std::str;

/// How the bytes of a text become characters.
#[derive(Clone, Copy, Debug, PartialEq, Eq)]
pub enum Codepage {
    /// Code page 437.
    Cp437,
    /// Code page 850.
    Cp850,
    /// ISO 8859-1.
    Latin1,
    /// UTF-8.
    Utf8,
}

/// How quotation marks and backslashes are written.
#[derive(Clone, Copy, Debug, PartialEq, Eq)]
pub(crate) enum Quotes {
    /// As escapes.
    Escaped,
    /// As they are.
    Plain,
}

/// Writes a text in UTF-8 by its code page.
pub(crate) fn decode(
    buffer: &mut [u8],
    at: usize,
    codepage: Codepage,
    quotes: Quotes,
    bytes: &[u8],
) -> Result<usize, Full>
    requires { at ≤ length buffer.old }
    ensures { Puts result at buffer.old buffer.new (text_by quotes codepage bytes.now) }
{
    match codepage {
        Codepage::Cp437 => decode_by(buffer, at, &CP437, quotes, bytes),
        Codepage::Cp850 => decode_by(buffer, at, &CP850, quotes, bytes),
        Codepage::Latin1 => decode_by(buffer, at, &LATIN1, quotes, bytes),
        Codepage::Utf8 => decode_utf8(buffer, at, quotes, bytes),
    }
}

/// Writes the characters of bytes. `characters` has the characters of bytes 80 to FF.
fn decode_by(
    buffer: &mut [u8],
    at: usize,
    characters: &[char; 128],
    quotes: Quotes,
    bytes: &[u8],
) -> Result<usize, Full>
    requires { at ≤ length buffer.old }
    ensures { Puts result at buffer.old buffer.new (decoded_by characters.now quotes bytes.now) }
{
    let mut end = at;
    for byte in bytes {
        end = decode_byte(buffer, end, characters, quotes, *byte)?;
    }
    Ok(end)
}

fn decode_byte(
    buffer: &mut [u8],
    at: usize,
    characters: &[char; 128],
    quotes: Quotes,
    byte: u8,
) -> Result<usize, Full>
    requires { at ≤ length buffer.old }
    ensures { Puts result at buffer.old buffer.new (decoded_byte characters.now quotes byte) }
{
    if byte < 0x80 {
        return ascii(buffer, at, quotes, byte);
    }
    let character = characters[byte as usize - 0x80];
    if character.is_control() {
        return escape(buffer, at, byte);
    }
    encode(buffer, at, character)
}

/// Writes a text of UTF-8. Bytes that are not UTF-8 get escapes.
fn decode_utf8(buffer: &mut [u8], at: usize, quotes: Quotes, bytes: &[u8]) -> Result<usize, Full>
    requires { at ≤ length buffer.old }
    ensures { Puts result at buffer.old buffer.new (decoded_utf8 quotes bytes.now) }
{
    let Ok(text) = str::from_utf8(bytes) else {
        return escape_all(buffer, at, bytes);
    };
    let mut end = at;
    for character in text.chars() {
        end = decode_character(buffer, end, quotes, character)?;
    }
    Ok(end)
}

fn decode_character(
    buffer: &mut [u8],
    at: usize,
    quotes: Quotes,
    character: char,
) -> Result<usize, Full>
    requires { at ≤ length buffer.old }
    ensures { Puts result at buffer.old buffer.new (decoded_character quotes character) }
{
    if character.is_ascii() {
        return ascii(buffer, at, quotes, character as u8);
    }
    if character.is_control() {
        return escape_all(buffer, at, character.encode_utf8(&mut [0; 4]).as_bytes());
    }
    encode(buffer, at, character)
}

/// Writes a character of ASCII.
fn ascii(buffer: &mut [u8], at: usize, quotes: Quotes, character: u8) -> Result<usize, Full>
    requires { at ≤ length buffer.old }
    ensures { Puts result at buffer.old buffer.new (ascii quotes character) }
{
    if quotes == Quotes::Plain && character >= 0x20 && character <= 0x7E {
        return push(buffer, at, character);
    }
    escape(buffer, at, character)
}

/// Writes a character in UTF-8.
fn encode(buffer: &mut [u8], at: usize, character: char) -> Result<usize, Full>
    requires { at ≤ length buffer.old }
    ensures { Puts result at buffer.old buffer.new (encode_utf8 character) }
{
    word(buffer, at, character.encode_utf8(&mut [0; 4]).as_bytes())
}

/// The characters of code page 437, from byte 80 on.
static CP437: [char; 128] = [
    'Ç', 'ü', 'é', 'â', 'ä', 'à', 'å', 'ç', 'ê', 'ë', 'è', 'ï', 'î', 'ì', 'Ä', 'Å', 'É', 'æ', 'Æ',
    'ô', 'ö', 'ò', 'û', 'ù', 'ÿ', 'Ö', 'Ü', '¢', '£', '¥', '₧', 'ƒ', 'á', 'í', 'ó', 'ú', 'ñ', 'Ñ',
    'ª', 'º', '¿', '⌐', '¬', '½', '¼', '¡', '«', '»', '░', '▒', '▓', '│', '┤', '╡', '╢', '╖', '╕',
    '╣', '║', '╗', '╝', '╜', '╛', '┐', '└', '┴', '┬', '├', '─', '┼', '╞', '╟', '╚', '╔', '╩', '╦',
    '╠', '═', '╬', '╧', '╨', '╤', '╥', '╙', '╘', '╒', '╓', '╫', '╪', '┘', '┌', '█', '▄', '▌', '▐',
    '▀', 'α', 'ß', 'Γ', 'π', 'Σ', 'σ', 'µ', 'τ', 'Φ', 'Θ', 'Ω', 'δ', '∞', 'φ', 'ε', '∩', '≡', '±',
    '≥', '≤', '⌠', '⌡', '÷', '≈', '°', '∙', '·', '√', 'ⁿ', '²', '■', '\u{A0}',
];

/// The characters of code page 850, from byte 80 on.
static CP850: [char; 128] = [
    'Ç', 'ü', 'é', 'â', 'ä', 'à', 'å', 'ç', 'ê', 'ë', 'è', 'ï', 'î', 'ì', 'Ä', 'Å', 'É', 'æ', 'Æ',
    'ô', 'ö', 'ò', 'û', 'ù', 'ÿ', 'Ö', 'Ü', 'ø', '£', 'Ø', '×', 'ƒ', 'á', 'í', 'ó', 'ú', 'ñ', 'Ñ',
    'ª', 'º', '¿', '®', '¬', '½', '¼', '¡', '«', '»', '░', '▒', '▓', '│', '┤', 'Á', 'Â', 'À', '©',
    '╣', '║', '╗', '╝', '¢', '¥', '┐', '└', '┴', '┬', '├', '─', '┼', 'ã', 'Ã', '╚', '╔', '╩', '╦',
    '╠', '═', '╬', '¤', 'ð', 'Ð', 'Ê', 'Ë', 'È', 'ı', 'Í', 'Î', 'Ï', '┘', '┌', '█', '▄', '¦', 'Ì',
    '▀', 'Ó', 'ß', 'Ô', 'Ò', 'õ', 'Õ', 'µ', 'þ', 'Þ', 'Ú', 'Û', 'Ù', 'ý', 'Ý', '¯', '´', '\u{AD}',
    '±', '‗', '¾', '¶', '§', '÷', '¸', '°', '¨', '·', '¹', '³', '²', '■', '\u{A0}',
];

/// The characters of ISO 8859-1, from byte 80 on.
static LATIN1: [char; 128] = [
    '\u{80}', '\u{81}', '\u{82}', '\u{83}', '\u{84}', '\u{85}', '\u{86}', '\u{87}', '\u{88}',
    '\u{89}', '\u{8A}', '\u{8B}', '\u{8C}', '\u{8D}', '\u{8E}', '\u{8F}', '\u{90}', '\u{91}',
    '\u{92}', '\u{93}', '\u{94}', '\u{95}', '\u{96}', '\u{97}', '\u{98}', '\u{99}', '\u{9A}',
    '\u{9B}', '\u{9C}', '\u{9D}', '\u{9E}', '\u{9F}', '\u{A0}', '\u{A1}', '\u{A2}', '\u{A3}',
    '\u{A4}', '\u{A5}', '\u{A6}', '\u{A7}', '\u{A8}', '\u{A9}', '\u{AA}', '\u{AB}', '\u{AC}',
    '\u{AD}', '\u{AE}', '\u{AF}', '\u{B0}', '\u{B1}', '\u{B2}', '\u{B3}', '\u{B4}', '\u{B5}',
    '\u{B6}', '\u{B7}', '\u{B8}', '\u{B9}', '\u{BA}', '\u{BB}', '\u{BC}', '\u{BD}', '\u{BE}',
    '\u{BF}', '\u{C0}', '\u{C1}', '\u{C2}', '\u{C3}', '\u{C4}', '\u{C5}', '\u{C6}', '\u{C7}',
    '\u{C8}', '\u{C9}', '\u{CA}', '\u{CB}', '\u{CC}', '\u{CD}', '\u{CE}', '\u{CF}', '\u{D0}',
    '\u{D1}', '\u{D2}', '\u{D3}', '\u{D4}', '\u{D5}', '\u{D6}', '\u{D7}', '\u{D8}', '\u{D9}',
    '\u{DA}', '\u{DB}', '\u{DC}', '\u{DD}', '\u{DE}', '\u{DF}', '\u{E0}', '\u{E1}', '\u{E2}',
    '\u{E3}', '\u{E4}', '\u{E5}', '\u{E6}', '\u{E7}', '\u{E8}', '\u{E9}', '\u{EA}', '\u{EB}',
    '\u{EC}', '\u{ED}', '\u{EE}', '\u{EF}', '\u{F0}', '\u{F1}', '\u{F2}', '\u{F3}', '\u{F4}',
    '\u{F5}', '\u{F6}', '\u{F7}', '\u{F8}', '\u{F9}', '\u{FA}', '\u{FB}', '\u{FC}', '\u{FD}',
    '\u{FE}', '\u{FF}',
];
