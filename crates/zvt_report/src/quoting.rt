//! Texts as JSON strings.
ghost use Rattle.std.specs.Prelude.{◌≡◌, ◌<◌, ◌/◌, ◌%◌, ◌∷◌, [], ◌++◌, OnOk};
ghost use Rattle.std.specs.Char.{digit_char};
ghost use Rattle.json.specs.Print.{escape, escape_byte};
ghost use Rattle.serde_json.specs.Data.{string};
ghost use Rattle.serde_json.specs.Written.{compact_text};

use std::alloc::AllocError;
use zvt_text::Text;

/// Writes a text between quotation marks.
pub(crate) fn quoted_text(text: &mut Text, characters: &[u8]) -> Result<(), AllocError>
    ensures { OnOk result (text.new ≡ text.old ++ compact_text (string characters.now)) }
{
    text.push(b'"')?;
    write_escaped(text, characters)?;
    text.push(b'"')
}

/// Writes these characters, escaped as JSON requires.
#[tactic(auto, unfolding(json::specs::Print::escape_byte))]
fn write_escaped(text: &mut Text, characters: &[u8]) -> Result<(), AllocError>
    ensures { OnOk result (text.new ≡ text.old ++ escape characters.now) }
{
    let mut rest = characters;
    'characters: while let [character, after @ ..] = rest {
        write_character(text, *character)?;
        rest = after;
    }
    Ok(())
}

/// Writes one character, with the shortest escape.
#[tactic(auto, unfolding(json::specs::Print::escape_byte))]
fn write_character(text: &mut Text, character: u8) -> Result<(), AllocError>
    ensures { OnOk result (text.new ≡ text.old ++ escape_byte character) }
{
    match character {
        b'"' => text.word(b"\\\""),
        b'\\' => text.word(b"\\\\"),
        8 => text.word(b"\\b"),
        12 => text.word(b"\\f"),
        b'\n' => text.word(b"\\n"),
        b'\r' => text.word(b"\\r"),
        b'\t' => text.word(b"\\t"),
        0..=0x1F => write_control(text, character),
        _ => text.push(character),
    }
}

/// Writes the numeric escape of a control character.
fn write_control(text: &mut Text, character: u8) -> Result<(), AllocError>
    ensures { OnOk result (text.new ≡ text.old ++ 92 ∷ 117 ∷ 48 ∷ 48 ∷ digit_char (character / 16)
        ∷ digit_char (character % 16) ∷ []) }
{
    text.word(b"\\u00")?;
    text.push(digit(character / 16))?;
    text.push(digit(character % 16))
}

/// Returns the character of a hexadecimal digit.
fn digit(value: u8) -> u8
    requires { value < 16 }
    ensures { result ≡ digit_char value }
{
    if value < 10 {
        b'0' + value
    } else {
        b'a' + (value - 10)
    }
}
