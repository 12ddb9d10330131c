//! The table of BMPs (PA00P015, list of bitmaps). This project chooses which ones it lists.

ghost use Rattle.std.specs.Prelude.{◌≡◌, ◌≤◌, IfSome, is_some, option_map};
ghost use Rattle.zvt_field.specs.Judging.{count_digits};
ghost use Rattle.zvt_field.specs.declared.shapes.Format.TheVariants.{Amount};
ghost use Rattle.zvt_field.specs.Shapes.{format_in, format_of, name_of, shape_of};

use crate::bmp;
use crate::shapes::{Format, Shape};

/// What the table says of a BMP: a row of it.
#[derive(Clone, Copy)]
struct BmpInfo {
    shape: Shape,
    name: &'static str,
    format: Format,
}

#[inline(always)]
fn info(shape: Shape, name: &'static str, format: Format) -> BmpInfo
    ensures shape { result.shape ≡ shape }
    ensures name { result.name.now ≡ name.now }
    ensures format { result.format ≡ format }
{
    BmpInfo {
        shape,
        name,
        format,
    }
}

/// The row of a BMP, if the table lists it.
#[tactic(auto, unfolding(crate::specs::Shapes::shape_of))]
#[inline(always)]
fn find(bmp: u8) -> Option<BmpInfo>
    ensures shape { option_map (λ row. row.shape) result ≡ shape_of bmp }
    ensures name { option_map (λ row. row.name.now) result ≡ name_of bmp }
    ensures format { format_in (option_map (λ row. row.format) result) ≡ format_of bmp }
    ensures amount { IfSome result (λ row. row.format ≡ Amount → bmp ≡ 0x04) }
{
    Some(match bmp {
        0x01 => info(Shape::Fixed(1), "time-out", Format::Bytes),
        0x02 => info(Shape::Fixed(1), "max-status", Format::Bytes),
        0x03 => info(Shape::Fixed(1), "service", Format::Bytes),
        bmp::AMOUNT => info(Shape::Digits(6), "amount", Format::Amount),
        0x05 => info(Shape::Fixed(1), "pump", Format::Bytes),
        0x06 => info(Shape::Tree, "container", Format::Bytes),
        bmp::TRACE => info(Shape::Digits(3), "trace", Format::Bytes),
        0x0C => info(Shape::Digits(3), "time", Format::Bytes),
        0x0D => info(Shape::Digits(2), "date", Format::Bytes),
        0x0E => info(Shape::Fixed(2), "expiry", Format::Bytes),
        0x17 => info(Shape::Fixed(2), "sequence", Format::Bytes),
        0x19 => info(Shape::Fixed(1), "payment-type", Format::Bytes),
        0x22 => info(Shape::Ll, "pan", Format::Hidden),
        0x23 => info(Shape::Ll, "track2", Format::Hidden),
        0x24 => info(Shape::Lll, "track3", Format::Hidden),
        bmp::RESULT => info(Shape::Fixed(1), "result", Format::Result),
        bmp::TERMINAL => info(Shape::Digits(4), "terminal", Format::Bytes),
        0x2A => info(Shape::Fixed(15), "contract", Format::Text),
        0x2D => info(Shape::Ll, "track1", Format::Hidden),
        0x2E => info(Shape::Lll, "chip-data", Format::Bytes),
        bmp::ORIGINAL => info(Shape::Fixed(3), "original-trace", Format::Bytes),
        0x3A.. => return find_high(bmp),
        _ => return None,
    })
}

/// The row of a BMP from 0x3A on, if the table lists it.
#[tactic(auto, unfolding(crate::specs::Shapes::shape_of))]
#[inline(always)]
fn find_high(bmp: u8) -> Option<BmpInfo>
    requires { 0x3A ≤ bmp }
    ensures shape { option_map (λ row. row.shape) result ≡ shape_of bmp }
    ensures name { option_map (λ row. row.name.now) result ≡ name_of bmp }
    ensures format { format_in (option_map (λ row. row.format) result) ≡ format_of bmp }
    ensures amount { IfSome result (λ row. row.format ≡ Amount → bmp ≡ 0x04) }
{
    Some(match bmp {
        0x3A => info(Shape::Fixed(2), "verification", Format::Hidden),
        0x3B => info(Shape::Fixed(8), "attribute", Format::Bytes),
        0x3C => info(Shape::Lll, "text", Format::Bytes),
        0x3D => info(Shape::Fixed(3), "password", Format::Hidden),
        bmp::CURRENCY => info(Shape::Digits(2), "currency", Format::Bytes),
        0x60 => info(Shape::Lll, "totals", Format::Bytes),
        bmp::RECEIPT => info(Shape::Fixed(2), "receipt", Format::Bytes),
        0x88 => info(Shape::Fixed(3), "turnover", Format::Bytes),
        0x8A => info(Shape::Fixed(1), "card-type", Format::Bytes),
        0x8B => info(Shape::Ll, "card-name", Format::Text),
        0x8C => info(Shape::Fixed(1), "network-card", Format::Bytes),
        0x92 => info(Shape::Lll, "field-92", Format::Bytes),
        0x9A => info(Shape::Lll, "field-9A", Format::Bytes),
        0xA0 => info(Shape::Fixed(1), "result-as", Format::Bytes),
        0xA7 => info(Shape::Ll, "ef-id", Format::Bytes),
        0xAA => info(Shape::Digits(3), "date-ymd", Format::Bytes),
        0xAF => info(Shape::Lll, "field-AF", Format::Bytes),
        0xBA => info(Shape::Fixed(5), "aid", Format::Bytes),
        _ => return None,
    })
}

/// Returns the shape of the field with this BMP, if the table lists it.
#[inline(always)]
pub fn shape(bmp: u8) -> Option<Shape>
    ensures { result ≡ shape_of bmp }
{
    Some(find(bmp)?.shape)
}

/// Returns the name of the field with this BMP, if the table lists it.
pub fn name(bmp: u8) -> Option<&'static str>
    ensures value { option_map (λ name. name.now) result ≡ name_of bmp }
    ensures listed { is_some result ≡ is_some (shape_of bmp) }
{
    Some(find(bmp)?.name)
}

/// Returns how an output shows the content of the field with this BMP. A field that the table does not list is shown as
/// bytes.
#[inline(always)]
pub fn format(bmp: u8) -> Format
    ensures value { result ≡ format_of bmp }
    ensures amount { result ≡ Amount → bmp ≡ 0x04 }
{
    match find(bmp) {
        Some(row) => row.format,
        None => Format::Bytes,
    }
}

/// Returns the number of digits in the length after a BMP of this shape.
pub fn count_digits(shape: Option<Shape>) -> usize
    ensures { result ≡ count_digits shape }
{
    match shape {
        Some(Shape::Ll) => 2,
        Some(Shape::Lll) => 3,
        _ => 0,
    }
}
