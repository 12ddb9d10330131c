//! Escapes characters.
ghost use Rattle.std.specs.Prelude.{◌≡◌, ◌++◌, OnOk};
ghost use Rattle.zvt_page.specs.Html.{escaped, escaped_letter, is_control, shown, spelled};

use std::alloc::AllocError;
use zvt_text::Text;

/// Whether this is an ASCII control character.
fn is_control(character: u8) -> bool
    ensures { result ≡ is_control character }
{
    character < 32 || character == 127
}

/// Returns a blank in place of a control character.
fn shown(character: u8) -> u8
    ensures { result ≡ shown character }
{
    if is_control(character) {
        b' '
    } else {
        character
    }
}

/// Writes a character, as an entity if markup uses it.
fn spelled(text: &mut Text, character: u8) -> Result<(), AllocError>
    ensures { OnOk result (text.new ≡ text.old ++ spelled character) }
{
    match character {
        b'&' => text.word(b"&amp;"),
        b'<' => text.word(b"&lt;"),
        b'>' => text.word(b"&gt;"),
        b'"' => text.word(b"&quot;"),
        b'\'' => text.word(b"&#39;"),
        _ => text.push(character),
    }
}

/// Writes a character of a text.
fn escaped_letter(text: &mut Text, character: u8) -> Result<(), AllocError>
    ensures { OnOk result (text.new ≡ text.old ++ escaped_letter character) }
{
    spelled(text, shown(character))
}

/// Writes characters as a page shows them: entities in place of `& < > " '`, and blanks in place of control characters.
#[tactic(auto, unfolding(crate::specs::Html::escaped))]
pub fn escaped(text: &mut Text, characters: &[u8]) -> Result<(), AllocError>
    ensures { OnOk result (text.new ≡ text.old ++ escaped characters.now) }
{
    let mut rest = characters;
    'letters: while let [letter, later @ ..] = rest {
        escaped_letter(text, *letter)?;
        rest = later;
    }
    Ok(())
}
