//! The lines of fields.
ghost use Rattle.std.specs.Prelude.{◌≡◌, ◌≤◌, [], length, unwrap_or};
ghost use Rattle.zvt_field.specs.Lent.{shown};
ghost use Rattle.zvt_field.specs.Shapes.{name_of};
ghost use Rattle.zvt_text.specs.Lines.{field_line, field_lines, named_text};
ghost use Rattle.zvt_text.specs.Writing.{Puts};

use crate::cursor::{Full, byte, fixed, push, word};
use crate::objects::object_lines;
use crate::text_options::TextOptions;
use crate::values::noted_value;
use zvt_field::{FieldView, FieldsView, name};

/// A line for each field. The lines of a container's objects follow its own line.
pub(crate) fn field_lines(
    buffer: &mut [u8],
    at: usize,
    options: TextOptions,
    fields: FieldsView<'_>,
) -> Result<usize, Full>
    requires { at ≤ length buffer.old }
    ensures { Puts result at buffer.old buffer.new (field_lines options fields.entry) }
{
    let mut end = at;
    for field in fields {
        end = field_line(buffer, end, options, &field)?;
    }
    Ok(end)
}

#[inline(always)]
fn field_line(
    buffer: &mut [u8],
    at: usize,
    options: TextOptions,
    field: &FieldView<'_>,
) -> Result<usize, Full>
    requires { at ≤ length buffer.old }
    ensures { Puts result at buffer.old buffer.new (field_line options (shown field.now)) }
{
    let at = named(buffer, at, field.bmp)?;
    match field.tree() {
        None => {
            let at = push(buffer, at, b' ')?;
            let at = noted_value(buffer, at, options, field.bmp, field.content)?;
            push(buffer, at, b'\n')
        }
        Some(objects) => {
            let at = push(buffer, at, b'\n')?;
            object_lines(buffer, at, options, objects, 1)
        }
    }
}

/// A BMP and its name.
#[inline(always)]
fn named(buffer: &mut [u8], at: usize, bmp: u8) -> Result<usize, Full>
    requires { at ≤ length buffer.old }
    ensures { Puts result at buffer.old buffer.new (named_text bmp) }
{
    if bmp < 0x40 {
        named_low(buffer, at, bmp)
    } else {
        named_high(buffer, at, bmp)
    }
}

/// Writes the name of a BMP of the table below 40, in one word.
#[inline(always)]
#[tactic(auto, unfolding(hex::specs::Hex::encode_with))]
fn named_low(buffer: &mut [u8], at: usize, bmp: u8) -> Result<usize, Full>
    requires { at ≤ length buffer.old }
    ensures { Puts result at buffer.old buffer.new (named_text bmp) }
{
    match bmp {
        0x01 => fixed(buffer, at, *b"  01 time-out"),
        0x02 => fixed(buffer, at, *b"  02 max-status"),
        0x03 => fixed(buffer, at, *b"  03 service"),
        0x04 => fixed(buffer, at, *b"  04 amount"),
        0x05 => fixed(buffer, at, *b"  05 pump"),
        0x06 => fixed(buffer, at, *b"  06 container"),
        0x0B => fixed(buffer, at, *b"  0B trace"),
        0x0C => fixed(buffer, at, *b"  0C time"),
        0x0D => fixed(buffer, at, *b"  0D date"),
        0x0E => fixed(buffer, at, *b"  0E expiry"),
        0x17 => fixed(buffer, at, *b"  17 sequence"),
        0x19 => fixed(buffer, at, *b"  19 payment-type"),
        0x22 => fixed(buffer, at, *b"  22 pan"),
        0x23 => fixed(buffer, at, *b"  23 track2"),
        0x24 => fixed(buffer, at, *b"  24 track3"),
        0x27 => fixed(buffer, at, *b"  27 result"),
        0x29 => fixed(buffer, at, *b"  29 terminal"),
        0x2A => fixed(buffer, at, *b"  2A contract"),
        0x2D => fixed(buffer, at, *b"  2D track1"),
        0x2E => fixed(buffer, at, *b"  2E chip-data"),
        0x37 => fixed(buffer, at, *b"  37 original-trace"),
        0x3A => fixed(buffer, at, *b"  3A verification"),
        0x3B => fixed(buffer, at, *b"  3B attribute"),
        0x3C => fixed(buffer, at, *b"  3C text"),
        0x3D => fixed(buffer, at, *b"  3D password"),
        _ => unlisted(buffer, at, bmp),
    }
}

/// Writes the name of a BMP of the table from 40 on, in one word.
#[inline(always)]
#[tactic(auto, unfolding(hex::specs::Hex::encode_with))]
fn named_high(buffer: &mut [u8], at: usize, bmp: u8) -> Result<usize, Full>
    requires { at ≤ length buffer.old }
    ensures { Puts result at buffer.old buffer.new (named_text bmp) }
{
    match bmp {
        0x49 => fixed(buffer, at, *b"  49 currency"),
        0x60 => fixed(buffer, at, *b"  60 totals"),
        0x87 => fixed(buffer, at, *b"  87 receipt"),
        0x88 => fixed(buffer, at, *b"  88 turnover"),
        0x8A => fixed(buffer, at, *b"  8A card-type"),
        0x8B => fixed(buffer, at, *b"  8B card-name"),
        0x8C => fixed(buffer, at, *b"  8C network-card"),
        0x92 => fixed(buffer, at, *b"  92 field-92"),
        0x9A => fixed(buffer, at, *b"  9A field-9A"),
        0xA0 => fixed(buffer, at, *b"  A0 result-as"),
        0xA7 => fixed(buffer, at, *b"  A7 ef-id"),
        0xAA => fixed(buffer, at, *b"  AA date-ymd"),
        0xAF => fixed(buffer, at, *b"  AF field-AF"),
        0xBA => fixed(buffer, at, *b"  BA aid"),
        _ => unlisted(buffer, at, bmp),
    }
}

/// A BMP that the table does not list.
fn unlisted(buffer: &mut [u8], at: usize, bmp: u8) -> Result<usize, Full>
    requires { at ≤ length buffer.old }
    ensures { Puts result at buffer.old buffer.new (named_text bmp) }
{
    let at = fixed(buffer, at, *b"  ")?;
    let at = byte(buffer, at, bmp)?;
    let at = push(buffer, at, b' ')?;
    word(buffer, at, name_or_nothing(bmp).as_bytes())
}

/// The name of a BMP, or nothing.
fn name_or_nothing(bmp: u8) -> &'static str
    ensures { result.now ≡ unwrap_or (name_of bmp) [] }
{
    name(bmp).unwrap_or("")
}
