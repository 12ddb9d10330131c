//! Copies views into owned values.

ghost use Rattle.std.specs.Prelude.{◌≡◌, ◌≢◌, [], IfOk, MatchResult};
ghost use Rattle.zvt_field.specs.Bodies.{field_of, HasSpelling, HaveSpelling};
ghost use Rattle.zvt_field.specs.Lent.{shown};

use crate::bodies::{Field, FieldBody};
use crate::lists::{Fields, PushRefusal};
use crate::views::{FieldView, FieldsView};
use std::alloc::{AllocError, Global};

/// What a field holds, in memory of its own.
fn owned_body(alloc: Global, field: &FieldView<'_>) -> Result<FieldBody, AllocError>
    requires { ∥ HasSpelling (shown field.now) ∥₁ }
    ensures { IfOk result (λ body. field_of field.now.bmp body ≡ shown field.now) }
{
    match field.tree() {
        Some(objects) => Ok(FieldBody::Tree(zvt_tlv::owned(alloc, objects)?)),
        None => Ok(FieldBody::Bytes(Vec::from_slice(alloc, field.content)?)),
    }
}

/// Copies the field of a view. Fails only if memory runs out. The field's shortest encoding must fit 65,535 bytes; the
/// viewed one may be longer.
pub fn owned_field(alloc: Global, field: &FieldView<'_>) -> Result<Field, AllocError>
    requires { ∥ HasSpelling (shown field.now) ∥₁ }
    ensures { IfOk result (λ made. made ≡ shown field.now) }
{
    let body = owned_body(alloc, field)?;
    let Ok(made) = Field::checked(field.bmp, body) else {
        unreachable!()
    };
    Ok(made)
}

/// Copies the fields of a view. Fails only if memory runs out, and never for an empty list. The fields' shortest
/// encoding must fit 65,535 bytes; the viewed one may be longer.
pub fn owned(alloc: Global, fields: FieldsView<'_>) -> Result<Fields, AllocError>
    requires { ∥ HaveSpelling fields ∥₁ }
    ensures { MatchResult result (λ made. made ≡ fields.entry) (λ _. fields.entry ≢ []) }
{
    let mut made = Fields::new(alloc);
    for field in fields {
        let field = owned_field(alloc, &field)?;
        match made.push(field) {
            Ok(()) => (),
            Err(PushRefusal::Memory(_)) => return Err(AllocError),
            Err(PushRefusal::TooLarge(_)) => unreachable!(),
        }
    }
    Ok(made)
}
