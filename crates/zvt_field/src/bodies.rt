//! Fields, and conditions under which they have an encoding.

ghost use Rattle.std.specs.Prelude.{◌≡◌, ◌↔◌, ℕ, IsTrue, IsOk, IfOk, IfErr};
ghost use Rattle.zvt_grammar.specs.Reading.{AreBytes};
ghost use Rattle.zvt_field.specs.Bodies.{name_of, field_of, size_agrees, AreParts, DigitsAgree, HasFault, HasSpelling};

use crate::Shape;
use crate::sizes::{LARGEST, tree_size};
use crate::table::shape;
use std::marker::Model;
use thiserror::Error;
use zvt_bcd::is_digits;
use zvt_tlv::Forest;

/// The content of a field: bytes or objects.
#[derive(Drop)]
pub enum FieldBody {
    Bytes(Vec<u8>),
    Tree(Forest),
}

/// Why a field has no encoding.
#[derive(Clone, Copy, Debug, Drop, PartialEq, Eq, Error)]
pub enum BadField {
    /// The table does not list the BMP.
    #[error("no field has this BMP")]
    Unknown,
    /// The body has another kind or size than the BMP demands.
    #[error("the content is of another kind or size than its BMP requires")]
    Size,
    /// Half of a byte is not a decimal digit where digits are required.
    #[error("the content has a half byte that is not a decimal digit")]
    NotDigit,
}

/// A field that has an encoding: its BMP and its content.
#[derive(Drop)]
pub struct Field {
    bmp: u8,
    body: FieldBody,
}

impl Model for Field {
    ghost use Rattle.zvt_field.specs.Grammar.{Field, field_code};

    ghost Value = { Field };

    ghost coded = { field_code };

    ghost use Rattle.zvt_field.specs.Bodies.{field_of, HasSpelling};

    ghost view = { λ f. field_of f.bmp f.body };

    ghost invariant = { λ f. HasSpelling (field_of f.bmp f.body) };
}

impl Field {
    /// Returns the field with this BMP and body if it has an encoding. Otherwise hands the body back with its first
    /// fault, in the order of `BadField`. `Size` means that a fixed size is not met, that more than 99 or 999 bytes
    /// would follow a length of two or three digits, or that a container would exceed 65,535 bytes with its BMP and
    /// length.
    pub fn checked(bmp: u8, body: FieldBody) -> Result<Field, (FieldBody, BadField)>
        ensures ok { IsOk result ↔ HasSpelling (field_of bmp body) }
        ensures value { IfOk result (λ field. field ≡ field_of bmp body) }
        ensures back { IfErr result (λ refused. refused.0 ≡ body) }
        ensures fault { IfErr result (λ refused. HasFault bmp (field_of bmp body) refused.1) }
    {
        let Some(shape) = shape(bmp) else {
            return Err((body, BadField::Unknown));
        };
        if !size_agrees(shape, &body) {
            return Err((body, BadField::Size));
        }
        if !digits_agree(shape, &body) {
            return Err((body, BadField::NotDigit));
        }
        Ok(Field { bmp, body })
    }

    /// Makes a field of a body that was read.
    pub(crate) fn of(bmp: u8, body: FieldBody) -> Field
        requires { HasSpelling (field_of bmp body) }
        ensures { result ≡ field_of bmp body }
    {
        Field { bmp, body }
    }

    /// Returns the BMP.
    pub fn bmp(&self) -> u8
        ensures { result ≡ name_of self.now }
    {
        self.bmp
    }

    /// Returns the content.
    pub fn body(&self) -> &FieldBody
        ensures body { field_of (name_of self.now) result.now ≡ self.now }
        ensures spelled { HasSpelling self.now }
    {
        &self.body
    }
}

/// Each item of a list of bytes is a byte.
fn note_bytes(bytes: &[u8])
    ensures { AreBytes bytes.now }
{}

/// Whether a body has the kind and the size that the shape demands.
fn size_agrees(shape: Shape, body: &FieldBody) -> bool
    ensures size { (bmp : ℕ) → result ≡ size_agrees shape (field_of bmp body.now) }
    ensures parts { (bmp : ℕ) → AreParts (field_of bmp body.now) }
{
    match body {
        FieldBody::Bytes(content) => {
            note_bytes(content);
            match shape {
                Shape::Fixed(size) | Shape::Digits(size) => content.len() == size,
                Shape::Ll => content.len() < 100,
                Shape::Lll => content.len() < 1_000,
                Shape::Tree => false,
            }
        }
        FieldBody::Tree(objects) => {
            let size = tree_size(objects);
            match shape {
                Shape::Tree => 1 + size <= LARGEST,
                _ => false,
            }
        }
    }
}

/// Whether a body has digits where the shape demands them.
fn digits_agree(shape: Shape, body: &FieldBody) -> bool
    ensures { (bmp : ℕ) → IsTrue result ↔ DigitsAgree shape (field_of bmp body.now) }
{
    match shape {
        Shape::Digits(_) => match body {
            FieldBody::Bytes(content) => is_digits(content),
            FieldBody::Tree(_) => true,
        },
        _ => true,
    }
}
