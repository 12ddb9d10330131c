//! The JSON of a container's objects.
ghost use Rattle.std.specs.Prelude.{◌≡◌, ◌≤◌, false, true, length};
ghost use Rattle.serde_json.specs.Written.{items_text};
ghost use Rattle.zvt_tlv.specs.Checks.{is_shallow};
ghost use Rattle.zvt_text.specs.Writing.{Puts};
ghost use Rattle.zvt_json.specs.Fields.{object_values};
ghost use Rattle.zvt_json.specs.Texts.{hidden_object_text, primitive_text, shown_text, tag_text};

use crate::parts::comma;
use crate::strings::bytes;
use zvt_text::cursor::{Full, decimal, fixed, push};
use zvt_text::is_secret_tag;
use zvt_tlv::ForestView;

/// Writes an object for each object at this depth, and the end of the array.
pub(crate) fn objects(
    buffer: &mut [u8],
    at: usize,
    forest: ForestView<'_>,
    depth: usize,
) -> Result<usize, Full>
    requires shallow { is_shallow depth forest ≡ true }
    requires most { depth ≤ 6 }
    requires inside { at ≤ length buffer.old }
    ensures { Puts result at buffer.old buffer.new (items_text false (object_values forest.entry)) }
{
    let mut end = at;
    let mut later = false;
    for object in forest {
        let at = comma(buffer, end, later)?;
        end = match object.children() {
            None => primitive(buffer, at, object.tag, object.content)?,
            Some(inner) => {
                let at = fixed(buffer, at, *b"{\"objects\":[")?;
                let at = objects(buffer, at, inner, depth + 1)?;
                tag(buffer, at, object.tag)?
            }
        };
        later = true;
    }
    push(buffer, end, b']')
}

/// Writes an object whose content is bytes, or its size if it has card data.
fn primitive(buffer: &mut [u8], at: usize, name: &[u8], content: &[u8]) -> Result<usize, Full>
    requires { at ≤ length buffer.old }
    ensures { Puts result at buffer.old buffer.new (primitive_text name.now content.now) }
{
    if is_secret_tag(name) {
        hidden(buffer, at, name, content.len() as u64)
    } else {
        shown(buffer, at, name, content)
    }
}

/// Writes an object and the size of its content.
fn hidden(buffer: &mut [u8], at: usize, name: &[u8], size: u64) -> Result<usize, Full>
    requires { at ≤ length buffer.old }
    ensures { Puts result at buffer.old buffer.new (hidden_object_text name.now size) }
{
    let at = fixed(buffer, at, *b"{\"hidden\":")?;
    let at = decimal(buffer, at, size)?;
    tag(buffer, at, name)
}

/// Writes an object and its content.
fn shown(buffer: &mut [u8], at: usize, name: &[u8], content: &[u8]) -> Result<usize, Full>
    requires { at ≤ length buffer.old }
    ensures { Puts result at buffer.old buffer.new (shown_text name.now content.now) }
{
    let at = fixed(buffer, at, *b"{\"content\":\"")?;
    let at = bytes(buffer, at, content)?;
    tag(buffer, at, name)
}

/// Writes the tag of an object, which is its last member.
fn tag(buffer: &mut [u8], at: usize, tag: &[u8]) -> Result<usize, Full>
    requires { at ≤ length buffer.old }
    ensures { Puts result at buffer.old buffer.new (tag_text tag.now) }
{
    let at = fixed(buffer, at, *b",\"tag\":\"")?;
    let at = bytes(buffer, at, tag)?;
    push(buffer, at, b'}')
}
