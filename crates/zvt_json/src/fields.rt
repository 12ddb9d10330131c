//! The JSON of fields.
ghost use Rattle.std.specs.Prelude.{◌≡◌, ◌≤◌, false, true, length};
ghost use Rattle.serde_json.specs.Written.{compact_text, items_text};
ghost use Rattle.zvt_bcd.specs.Digits.{number_of};
ghost use Rattle.zvt_field.specs.Lent.{shown};
ghost use Rattle.zvt_field.specs.Views.{PlainBytes};
ghost use Rattle.zvt_tlv.specs.Checks.{is_shallow};
ghost use Rattle.zvt_text.specs.Writing.{Puts};
ghost use Rattle.zvt_json.specs.Fields.{field_value, field_values, plain_value};
ghost use Rattle.zvt_json.specs.Texts.{amount_text, code_text, content_text, hidden_text, quoted_text, result_text};
ghost use Rattle.zvt_json.specs.Texts.{tree_text};

use crate::objects::objects;
use crate::parts::{comma, name, opened, words};
use crate::strings::{byte, bytes, text};
use zvt_bcd::number;
use zvt_field::{FieldView, FieldsView, Format, format};
use zvt_text::cursor::{Full, decimal, fixed, push};
use zvt_text::meaning;
use zvt_tlv::ForestView;

/// Writes an object for each field, and the end of the array.
pub(crate) fn fields(buffer: &mut [u8], at: usize, fields: FieldsView<'_>) -> Result<usize, Full>
    requires { at ≤ length buffer.old }
    ensures { Puts result at buffer.old buffer.new (items_text false (field_values fields.entry)) }
{
    let mut end = at;
    let mut later = false;
    for one in fields {
        let at = comma(buffer, end, later)?;
        end = field(buffer, at, &one)?;
        later = true;
    }
    push(buffer, end, b']')
}

#[inline(always)]
fn field(buffer: &mut [u8], at: usize, field: &FieldView<'_>) -> Result<usize, Full>
    requires { at ≤ length buffer.old }
    ensures { Puts result at buffer.old buffer.new (compact_text (field_value (shown field.now))) }
{
    match field.tree() {
        None => plain(buffer, at, field.bmp, field.content),
        Some(inner) => tree(buffer, at, field.bmp, inner),
    }
}

/// Writes a field whose content is TLV objects.
fn tree(buffer: &mut [u8], at: usize, bmp: u8, inner: ForestView<'_>) -> Result<usize, Full>
    requires shallow { is_shallow 1 inner ≡ true }
    requires inside { at ≤ length buffer.old }
    ensures { Puts result at buffer.old buffer.new (tree_text bmp inner.entry) }
{
    let at = opened(buffer, at, bmp)?;
    let at = name(buffer, at, bmp)?;
    let at = fixed(buffer, at, *b",\"objects\":[")?;
    let at = objects(buffer, at, inner, 1)?;
    push(buffer, at, b'}')
}

/// Writes a field whose content is bytes.
fn plain(buffer: &mut [u8], at: usize, bmp: u8, content: &[u8]) -> Result<usize, Full>
    requires plain { PlainBytes bmp content.now }
    requires inside { at ≤ length buffer.old }
    ensures { Puts result at buffer.old buffer.new (compact_text (plain_value bmp content.now)) }
{
    match format(bmp) {
        Format::Amount => amount(buffer, at, bmp, units(content)),
        Format::Result => outcome(buffer, at, bmp, content),
        Format::Text => quoted(buffer, at, bmp, content),
        Format::Hidden => hidden(buffer, at, bmp, content.len()),
        Format::Bytes => in_hexadecimal(buffer, at, bmp, content),
    }
}

/// Writes an amount in the currency's smallest unit.
fn amount(buffer: &mut [u8], at: usize, bmp: u8, units: u64) -> Result<usize, Full>
    requires { at ≤ length buffer.old }
    ensures { Puts result at buffer.old buffer.new (amount_text bmp units) }
{
    let at = opened(buffer, at, bmp)?;
    let at = name(buffer, at, bmp)?;
    let at = fixed(buffer, at, *b",\"value\":")?;
    let at = decimal(buffer, at, units)?;
    push(buffer, at, b'}')
}

/// Returns the number in an amount's digits.
fn units(content: &[u8]) -> u64
    requires { PlainBytes 0x04 content.now }
    ensures { result ≡ number_of content.now }
{
    number(content)
}

fn outcome(buffer: &mut [u8], at: usize, bmp: u8, content: &[u8]) -> Result<usize, Full>
    requires { at ≤ length buffer.old }
    ensures { Puts result at buffer.old buffer.new (result_text bmp content.now) }
{
    match content {
        [code] => result_code(buffer, at, bmp, *code),
        _ => in_hexadecimal(buffer, at, bmp, content),
    }
}

/// Writes a result code and its meaning.
fn result_code(buffer: &mut [u8], at: usize, bmp: u8, code: u8) -> Result<usize, Full>
    requires { at ≤ length buffer.old }
    ensures { Puts result at buffer.old buffer.new (code_text bmp code) }
{
    let at = opened(buffer, at, bmp)?;
    let at = fixed(buffer, at, *b",\"code\":\"")?;
    let at = byte(buffer, at, code)?;
    let at = name(buffer, at, bmp)?;
    words(buffer, at, meaning(code))
}

/// Writes a text with escapes.
fn quoted(buffer: &mut [u8], at: usize, bmp: u8, content: &[u8]) -> Result<usize, Full>
    requires { at ≤ length buffer.old }
    ensures { Puts result at buffer.old buffer.new (quoted_text bmp content.now) }
{
    let at = opened(buffer, at, bmp)?;
    let at = name(buffer, at, bmp)?;
    let at = fixed(buffer, at, *b",\"text\":\"")?;
    let at = text(buffer, at, content)?;
    push(buffer, at, b'}')
}

/// Writes the size of a hidden field.
fn hidden(buffer: &mut [u8], at: usize, bmp: u8, size: usize) -> Result<usize, Full>
    requires { at ≤ length buffer.old }
    ensures { Puts result at buffer.old buffer.new (hidden_text bmp size) }
{
    let at = opened(buffer, at, bmp)?;
    let at = fixed(buffer, at, *b",\"hidden\":")?;
    let at = decimal(buffer, at, size as u64)?;
    let at = name(buffer, at, bmp)?;
    push(buffer, at, b'}')
}

/// Writes bytes in hexadecimal.
fn in_hexadecimal(buffer: &mut [u8], at: usize, bmp: u8, content: &[u8]) -> Result<usize, Full>
    requires { at ≤ length buffer.old }
    ensures { Puts result at buffer.old buffer.new (content_text bmp content.now) }
{
    let at = opened(buffer, at, bmp)?;
    let at = fixed(buffer, at, *b",\"content\":\"")?;
    let at = bytes(buffer, at, content)?;
    let at = name(buffer, at, bmp)?;
    push(buffer, at, b'}')
}
