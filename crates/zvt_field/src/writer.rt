//! Writes encodings.

ghost use Rattle.std.specs.Prelude.{◌≡◌, ℕ, List, ◌∷◌, length, ◌+◌, ◌<◌, ◌≤◌, IsTrue};
ghost use Rattle.zvt_grammar.specs.Reading.{shortest};
ghost use Rattle.zvt_tlv.specs.Sizes.{Puts};
ghost use Rattle.zvt_field.specs.Grammar.{FieldList};
ghost use Rattle.zvt_field.specs.Shapes.{shape_of};
ghost use Rattle.zvt_field.specs.Spelling.{count_bytes, count_holds, spelling_of, spelling_of_all};

use crate::table::shape;
use crate::{Field, FieldBody, Fields, Shape};
use zvt_bcd::{ll_put, lll_put};
use zvt_tlv::put_sized;

/// Puts bytes at the start, and says how many.
fn put(out: &mut [u8], bytes: &[u8]) -> usize
    requires { length bytes.now ≤ length out.old }
    ensures { Puts bytes.now out.old out.new result }
{
    out[..bytes.len()].copy_from_slice(bytes);
    bytes.len()
}

/// Writes a BMP and the length of its content, where digits spell one.
fn put_head(out: &mut [u8], bmp: u8, size: usize) -> usize
    requires small { IsTrue (count_holds (shape_of bmp) size) }
    requires room { 1 + length (count_bytes (shape_of bmp) size) ≤ length out.old }
    ensures { Puts (bmp ∷ count_bytes (shape_of bmp) size) out.old out.new result }
{
    match shape(bmp) {
        Some(Shape::Ll) => {
            let mut digits = [0; 2];
            ll_put(size as u8, &mut digits);
            put(out, &[bmp, digits[0], digits[1]])
        }
        Some(Shape::Lll) => {
            let mut digits = [0; 3];
            lll_put(size as u16, &mut digits);
            put(out, &[bmp, digits[0], digits[1], digits[2]])
        }
        _ => put(out, &[bmp]),
    }
}

/// Writes a field.
fn write_field(out: &mut [u8], field: &Field) -> usize
    requires { length (spelling_of field.now) ≤ length out.old }
    ensures { Puts (spelling_of field.now) out.old out.new result }
{
    match field.body() {
        FieldBody::Bytes(content) => {
            let at = put_head(out, field.bmp(), content.len());
            at + put(&mut out[at..], content)
        }
        FieldBody::Tree(objects) => {
            let at = put(out, &[field.bmp()]);
            at + put_sized(objects, &mut out[at..])
        }
    }
}

/// Writes the fields' encoding at the start and returns its size.
pub fn write_into(fields: &Fields, out: &mut [u8]) -> usize
    requires { (bytes : List ℕ) → FieldList shortest fields.now bytes → length bytes ≤ length out.old }
    ensures { (bytes : List ℕ) → FieldList shortest fields.now bytes → Puts bytes out.old out.new result }
{
    let mut at = 0;
    for field in fields.list() {
        at += write_field(&mut out[at..], field);
    }
    at
}
