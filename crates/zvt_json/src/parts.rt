//! Parts of arrays and objects.
ghost use Rattle.std.specs.Prelude.{◌≡◌, ◌≤◌, length};
ghost use Rattle.std.specs.Option.{option_copied};
ghost use Rattle.serde_json.specs.Written.{comma_if};
ghost use Rattle.zvt_json.specs.Fields.{field_name};
ghost use Rattle.zvt_text.specs.Writing.{Puts};
ghost use Rattle.zvt_json.specs.Texts.{name_text, opened_text, words_text};

use crate::strings::byte;
use zvt_text::cursor::{Full, fixed, push, word};

/// Writes a comma, unless this is the first item.
#[inline(always)]
pub(crate) fn comma(buffer: &mut [u8], at: usize, later: bool) -> Result<usize, Full>
    requires { at ≤ length buffer.old }
    ensures { Puts result at buffer.old buffer.new (comma_if later) }
{
    if later {
        return push(buffer, at, b',');
    }
    Ok(at)
}

/// Writes the words of a code or a status, if it has some, and the end of the object.
pub(crate) fn words(buffer: &mut [u8], at: usize, words: Option<&str>) -> Result<usize, Full>
    requires { at ≤ length buffer.old }
    ensures { Puts result at buffer.old buffer.new (words_text (option_copied words.entry)) }
{
    match words {
        Some(words) => {
            let at = fixed(buffer, at, *b",\"words\":\"")?;
            let at = word(buffer, at, words.as_bytes())?;
            fixed(buffer, at, *b"\"}")
        }
        None => push(buffer, at, b'}'),
    }
}

/// Writes the first member of a field.
#[inline(always)]
pub(crate) fn opened(buffer: &mut [u8], at: usize, bmp: u8) -> Result<usize, Full>
    requires { at ≤ length buffer.old }
    ensures { Puts result at buffer.old buffer.new (opened_text bmp) }
{
    let at = fixed(buffer, at, *b"{\"bmp\":\"")?;
    byte(buffer, at, bmp)
}

/// Writes the name of a field.
#[inline(always)]
pub(crate) fn name(buffer: &mut [u8], at: usize, bmp: u8) -> Result<usize, Full>
    requires { at ≤ length buffer.old }
    ensures { Puts result at buffer.old buffer.new (name_text bmp) }
{
    let at = fixed(buffer, at, *b",\"name\":\"")?;
    let at = word(buffer, at, name_or_nothing(bmp).as_bytes())?;
    push(buffer, at, b'"')
}

/// Returns the name of a BMP, or an empty text.
fn name_or_nothing(bmp: u8) -> &'static str
    ensures { result.now ≡ field_name bmp }
{
    zvt_field::name(bmp).unwrap_or("")
}
