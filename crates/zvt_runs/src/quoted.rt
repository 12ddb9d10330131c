//! The characters inside a JSON string.
ghost use Rattle.std.specs.Prelude.{◌≡◌, ◌<◌, ◌/◌, ◌%◌, ◌∷◌, [], ◌++◌, OnOk};
ghost use Rattle.std.specs.Char.{digit_char};
ghost use Rattle.json.specs.Print.{escape, escape_byte};

use std::alloc::AllocError;
use zvt_text::Text;

/// Adds these characters, escaped as JSON requires.
#[tactic(auto, unfolding(json::specs::Print::escape_byte))]
pub(crate) fn say_escaped(text: &mut Text, characters: &[u8]) -> Result<(), AllocError>
    ensures { OnOk result (text.new ≡ text.old ++ escape characters.now) }
{
    let mut rest = characters;
    'characters: while let [character, after @ ..] = rest {
        say_character(text, *character)?;
        rest = after;
    }
    Ok(())
}

/// Adds one character, with the shortest escape.
#[tactic(auto, unfolding(json::specs::Print::escape_byte))]
fn say_character(text: &mut Text, character: u8) -> Result<(), AllocError>
    ensures { OnOk result (text.new ≡ text.old ++ escape_byte character) }
{
    match character {
        b'"' => text.word(b"\\\""),
        b'\\' => text.word(b"\\\\"),
        8 => text.word(b"\\b"),
        12 => text.word(b"\\f"),
        b'\n' => text.word(b"\\n"),
        b'\r' => text.word(b"\\r"),
        b'\t' => text.word(b"\\t"),
        0..=0x1F => say_control(text, character),
        _ => text.push(character),
    }
}

/// Adds the numeric escape of a control character.
fn say_control(text: &mut Text, character: u8) -> Result<(), AllocError>
    ensures { OnOk result (text.new ≡ text.old ++ 92 ∷ 117 ∷ 48 ∷ 48 ∷ digit_char (character / 16)
        ∷ digit_char (character % 16) ∷ []) }
{
    text.word(b"\\u00")?;
    text.push(digit(character / 16))?;
    text.push(digit(character % 16))
}

/// Returns the character of a hexadecimal digit.
fn digit(value: u8) -> u8
    requires { value < 16 }
    ensures { result ≡ digit_char value }
{
    if value < 10 {
        b'0' + value
    } else {
        b'a' + (value - 10)
    }
}
