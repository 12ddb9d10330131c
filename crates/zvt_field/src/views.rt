//! Views borrow the bytes of fields that a reader found complete. They copy nothing and allocate nothing.

ghost use Rattle.std.specs.Prelude.{◌≡◌, ℕ, ◌%◌, ◌<◌, ◌^◌, List, ◌++◌, length, IfSome};
ghost use Rattle.std.specs.Option.{option_copied};
ghost use Rattle.zvt_grammar.specs.Reading.{padded};
ghost use Rattle.zvt_field.specs.Grammar.{Field, FieldList};
ghost use Rattle.zvt_field.specs.Named.{bytes_of, count_of, only_of, content_of, amount_of, trace_of, result_of};
ghost use Rattle.zvt_field.specs.Named.{receipt_of, currency_of, original_of};
ghost use Rattle.zvt_field.specs.Views.{FieldsBytes, fields_once, FieldBytes, field_once, IsLead, LeadFirst};
ghost use Rattle.zvt_field.specs.Views.{ContentFirst, tree_of, PlainBytes};

use crate::table::shape;
use crate::{Shape, bmp, contents};
use std::marker::Model;
use zvt_bcd::{Amount, Currency, Trace};
use zvt_tlv::{ForestView, length_first};

/// A field: its BMP, and its content without the length.
#[derive(Clone, Copy, Drop)]
pub struct FieldView<'a> {
    pub bmp: u8,
    pub content: &'a [u8],
    pub ghost field: { FieldBytes bmp content.now } by { field_once bmp content.now },
}

impl<'a> FieldView<'a> {
    ghost use Rattle.zvt_field.specs.Lent.{shown};

    /// Returns the objects of a container.
    #[inline(always)]
    pub fn tree(&self) -> Option<ForestView<'a>>
        ensures { result ≡ tree_of (shown self.now) }
    {
        match shape(self.bmp) {
            Some(Shape::Tree) => Some(ForestView::of(self.content)),
            _ => None,
        }
    }

    /// Returns the bytes of a field that is not a container.
    #[inline(always)]
    pub(crate) fn plain(&self) -> Option<&'a [u8]>
        ensures content { option_copied result ≡ bytes_of (shown self.now) }
        ensures spelled { IfSome result (λ bytes. PlainBytes self.now.bmp bytes.now) }
    {
        match self.tree() {
            Some(_) => None,
            None => Some(self.content),
        }
    }
}

/// Iterates over the fields that the bytes encode, in order. In contracts, its value is the fields that are left.
#[derive(Drop)]
pub struct FieldsView<'a> {
    bytes: &'a [u8],
    ghost spelled: { FieldsBytes bytes.now } by { fields_once bytes.now },
}

impl<'a> Model for FieldsView<'a> {
    ghost use Rattle.std.specs.Prelude.{List};
    ghost use Rattle.std.specs.Coded.{coded_list};
    ghost use Rattle.zvt_field.specs.Grammar.{Field, field_code};

    ghost Value = { List Field };

    ghost coded = { coded_list field_code };

    ghost view = { λ v. v.spelled.0 };
}

impl<'a> FieldsView<'a> {
    ghost use Rattle.zvt_field.specs.Lent.{all_shown};

    /// Returns a view of bytes that encode fields, with lengths of objects in any form.
    pub fn of(bytes: &'a [u8]) -> FieldsView<'a>
        requires { FieldsBytes bytes.now }
        ensures { (fields : List Field) → FieldList padded fields bytes.now → result ≡ fields }
    {
        FieldsView { bytes }
    }

    /// Returns another view of the same fields.
    pub fn again(&self) -> FieldsView<'a>
        ensures { result ≡ self.now }
    {
        FieldsView { bytes: self.bytes }
    }

    /// Returns the field with this BMP, if there is exactly one.
    pub fn only(&self, bmp: u8) -> Option<FieldView<'a>>
        ensures { all_shown result ≡ only_of bmp self.now }
    {
        let mut found = None;
        for field in self.again() {
            if field.bmp == bmp {
                if found.is_some() {
                    return None;
                }
                found = Some(field);
            }
        }
        found
    }

    /// Returns the bytes of the field with this BMP if it appears exactly once and is not a container.
    fn content(&self, bmp: u8) -> Option<&'a [u8]>
        ensures content { option_copied result ≡ content_of bmp self.now }
        ensures spelled { IfSome result (λ bytes. PlainBytes bmp bytes.now) }
    {
        self.only(bmp)?.plain()
    }

    /// Returns the amount in BMP 04, if it appears exactly once and isn't zero.
    pub fn amount(&self) -> Option<Amount>
        ensures { result ≡ amount_of self.now }
    {
        contents::amount(self.content(bmp::AMOUNT))
    }

    /// Returns the trace number in BMP 0B, if it appears exactly once.
    pub fn trace(&self) -> Option<Trace>
        ensures { result ≡ trace_of self.now }
    {
        contents::trace(self.content(bmp::TRACE))
    }

    /// Returns the result code in BMP 27, if it appears exactly once.
    pub fn result(&self) -> Option<u8>
        ensures { result ≡ result_of self.now }
    {
        contents::result(self.content(bmp::RESULT))
    }

    /// Returns the receipt number in BMP 87, if it appears exactly once: its two bytes as read, which need not be
    /// digits.
    pub fn receipt(&self) -> Option<[u8; 2]>
        ensures { result ≡ receipt_of self.now }
    {
        contents::receipt(self.content(bmp::RECEIPT))
    }

    /// Returns the currency in BMP 49, if it appears exactly once.
    pub fn currency(&self) -> Option<Currency>
        ensures { result ≡ currency_of self.now }
    {
        contents::currency(self.content(bmp::CURRENCY))
    }

    /// Returns the original trace number in BMP 37, if it appears exactly once: its three bytes as read.
    pub fn original(&self) -> Option<[u8; 3]>
        ensures { result ≡ original_of self.now }
    {
        contents::original(self.content(bmp::ORIGINAL))
    }

    /// Returns the number of fields with this BMP.
    pub fn count(&self, bmp: u8) -> usize
        ensures { result ≡ count_of bmp self.now }
    {
        note_size(self.bytes);
        let mut count = 0;
        for field in self.again() {
            if field.bmp == bmp {
                count += 1;
            }
        }
        count
    }
}

impl<'a> Iterator for FieldsView<'a> {
    ghost use Rattle.zvt_field.specs.Lent.{GivesField, fields_left};

    type Item = FieldView<'a>;

    ghost next_gives = { GivesField };

    ghost remaining = { fields_left };

    #[inline(always)]
    fn next(&mut self) -> Option<FieldView<'a>> {
        let bytes = self.bytes;
        if bytes.is_empty() {
            return None;
        }
        let bmp = bytes[0];
        let (content, after) = first_content(shape(bmp), &bytes[1..]);
        self.bytes = after;
        Some(FieldView { bmp, content })
    }
}

/// The number of bytes fits a word.
fn note_size(bytes: &[u8])
    ensures { length bytes.now < 2 ^ 64 }
{
    let _ = bytes.len();
}

/// Returns the size of the length after a BMP of this shape, and the size of the content.
#[inline(always)]
fn lead(shape: Option<Shape>, bytes: &[u8]) -> (usize, usize)
    requires { ∥ LeadFirst shape bytes.now ∥₁ }
    ensures { (n : ℕ) (size after : List ℕ) → bytes.now ≡ size ++ after → IsLead shape n size → (result.0 ≡ length size)
        × (result.1 ≡ n) }
{
    match shape {
        Some(Shape::Fixed(size)) | Some(Shape::Digits(size)) => (0, size),
        Some(Shape::Ll) => (2, digit(bytes[0]) * 10 + digit(bytes[1])),
        Some(Shape::Lll) => (
            3,
            (digit(bytes[0]) * 10 + digit(bytes[1])) * 10 + digit(bytes[2]),
        ),
        Some(Shape::Tree) => length_first(bytes),
        None => (0, 0),
    }
}

/// What a byte of a length of digits says.
fn digit(byte: u8) -> usize
    ensures { result ≡ byte % 16 }
{
    (byte % 16) as usize
}

/// Splits the bytes after a BMP of this shape into the content and the rest.
#[inline(always)]
fn first_content(shape: Option<Shape>, bytes: &[u8]) -> (&[u8], &[u8])
    requires { ∥ ContentFirst shape bytes.now ∥₁ }
    ensures { (size content after : List ℕ) → bytes.now ≡ size ++ (content ++ after) → IsLead shape (length content)
        size → (result.0.now ≡ content) × (result.1.now ≡ after) }
{
    let (start, size) = lead(shape, bytes);
    bytes[start..].split_at(size)
}
