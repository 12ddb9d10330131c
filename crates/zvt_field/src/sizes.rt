//! Sizes of encodings.

ghost use Rattle.std.specs.Prelude.{◌≡◌, ℕ, List, length, ◌+◌, ◌<◌, ◌^◌};
ghost use Rattle.zvt_grammar.specs.Reading.{shortest};
ghost use Rattle.zvt_tlv.specs.Sizes as tlv;
ghost use Rattle.zvt_tlv.specs.Spelled as tlv_spelled;
ghost use Rattle.zvt_field.specs.Grammar.{FieldList};
ghost use Rattle.zvt_field.specs.Bodies.{HasSpelling, HaveSpelling};
ghost use Rattle.zvt_field.specs.Lists.{HaveSize};
ghost use Rattle.zvt_field.specs.Spelling.{size_of_field};

use crate::table::{count_digits, shape};
use crate::{Field, FieldBody, Fields};
use zvt_tlv::{Forest, length_size};

/// The greatest size of fields.
pub(crate) const LARGEST: usize = 65_535;

/// The size of a container's length and content.
pub(crate) fn tree_size(objects: &Forest) -> usize
    ensures size { result ≡ tlv.length_size (tlv.size_of objects.now) + tlv.size_of objects.now }
    ensures spelled { tlv_spelled.HasSpelling objects.now }
    ensures small { result < 2 ^ 16 + 3 }
{
    let content = zvt_tlv::size(objects);
    length_size(content) + content
}

/// The size of a field.
pub(crate) fn field_size(field: &Field) -> usize
    ensures size { result ≡ size_of_field field.now }
    ensures spelled { HasSpelling field.now }
    ensures small { result < 2 ^ 16 }
{
    match field.body() {
        FieldBody::Bytes(content) => 1 + count_digits(shape(field.bmp())) + content.len(),
        FieldBody::Tree(objects) => 1 + tree_size(objects),
    }
}

/// The size of the spelling of fields that are together.
pub(crate) fn list_size(fields: &[Field]) -> usize
    requires { HaveSpelling fields.now }
    ensures { HaveSize fields.now result }
{
    let mut total = 0;
    for field in fields {
        total += field_size(field);
    }
    total
}

/// Returns the size of the fields' encoding, at most 65,535.
pub fn size(fields: &Fields) -> usize
    ensures value { (bytes : List ℕ) → FieldList shortest fields.now bytes → result ≡ length bytes }
    ensures spelled { HaveSpelling fields.now }
    ensures small { result < 2 ^ 16 }
{
    fields.size
}
