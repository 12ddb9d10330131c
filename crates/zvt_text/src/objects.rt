//! The lines of a container's objects.
ghost use Rattle.std.specs.Prelude.{◌≡◌, ◌+◌, ◌≤◌, ◌++◌, ◌∷◌, [], true, length};
ghost use Rattle.zvt_tlv.specs.Checks.{is_shallow};
ghost use Rattle.zvt_text.specs.Lines.{constructed_text, content_text, object_head, object_lines, object_text};
ghost use Rattle.zvt_text.specs.Meanings.{tag_name};
ghost use Rattle.zvt_text.specs.Notes.{note};
ghost use Rattle.zvt_text.specs.Writing.{Puts};

use crate::bytes::{bytes_or_dash, hidden};
use crate::cursor::{Full, fixed, hexadecimal, push, repeat};
use crate::meanings::tag_name;
use crate::notes::noted;
use crate::privacy::hides_tag;
use crate::text_options::TextOptions;
use zvt_tlv::ForestView;

/// A line for each object at this depth. The lines of the objects inside a constructed one follow its own line.
pub(crate) fn object_lines(
    buffer: &mut [u8],
    at: usize,
    options: TextOptions,
    objects: ForestView<'_>,
    depth: usize,
) -> Result<usize, Full>
    requires shallow { is_shallow depth objects ≡ true }
    requires most { depth ≤ 6 }
    requires inside { at ≤ length buffer.old }
    ensures { Puts result at buffer.old buffer.new (object_lines options depth objects.entry) }
{
    let mut end = at;
    for object in objects {
        let at = head(buffer, end, object.tag, depth)?;
        match object.children() {
            None => {
                let at = primitive(buffer, at, options, object.tag, object.content)?;
                end = push(buffer, at, b'\n')?;
            }
            Some(inner) => {
                let at = constructed(buffer, at, options, object.tag)?;
                end = object_lines(buffer, at, options, inner, depth + 1)?;
            }
        }
    }
    Ok(end)
}

/// An object's content, and the name of its tag in an explained text.
fn primitive(
    buffer: &mut [u8],
    at: usize,
    options: TextOptions,
    tag: &[u8],
    bytes: &[u8],
) -> Result<usize, Full>
    requires { at ≤ length buffer.old }
    ensures { Puts result at buffer.old buffer.new (object_text options tag.now bytes.now) }
{
    let at = content(buffer, at, options, tag, bytes)?;
    tag_note(buffer, at, options, tag)
}

/// What a constructed object has in place of its content, and the end of the line.
fn constructed(
    buffer: &mut [u8],
    at: usize,
    options: TextOptions,
    tag: &[u8],
) -> Result<usize, Full>
    requires { at ≤ length buffer.old }
    ensures { Puts result at buffer.old buffer.new (constructed_text options tag.now ++ 10 ∷ []) }
{
    let at = fixed(buffer, at, *b"constructed")?;
    let at = tag_note(buffer, at, options, tag)?;
    push(buffer, at, b'\n')
}

/// The name of a tag in an explained text.
fn tag_note(buffer: &mut [u8], at: usize, options: TextOptions, tag: &[u8]) -> Result<usize, Full>
    requires { at ≤ length buffer.old }
    ensures { Puts result at buffer.old buffer.new (note options (tag_name tag.now)) }
{
    if options.explained {
        noted(buffer, at, tag_name(tag))
    } else {
        Ok(at)
    }
}

/// An object's content, or its size if the text hides it.
fn content(
    buffer: &mut [u8],
    at: usize,
    options: TextOptions,
    tag: &[u8],
    content: &[u8],
) -> Result<usize, Full>
    requires { at ≤ length buffer.old }
    ensures { Puts result at buffer.old buffer.new (content_text options tag.now content.now) }
{
    if hides_tag(options, tag) {
        hidden(buffer, at, content)
    } else {
        bytes_or_dash(buffer, at, content)
    }
}

/// What comes before an object's content.
fn head(buffer: &mut [u8], at: usize, tag: &[u8], depth: usize) -> Result<usize, Full>
    requires most { depth ≤ 6 }
    requires inside { at ≤ length buffer.old }
    ensures { Puts result at buffer.old buffer.new (object_head depth tag.now) }
{
    let at = repeat(buffer, at, b' ', 2 + 2 * depth)?;
    let at = hexadecimal(buffer, at, tag)?;
    push(buffer, at, b' ')
}
