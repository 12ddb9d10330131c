//! Copies views into owned values.

ghost use Rattle.std.specs.Prelude.{◌≡◌, ◌≢◌, MatchResult};
ghost use Rattle.zvt_tlv.specs.Checks.{AllParts};
ghost use Rattle.zvt_tlv.specs.Grammar.{none};
ghost use Rattle.zvt_tlv.specs.Spelled.{HasSpelling};
ghost use Rattle.zvt_tlv.specs.Trees.{objects_of};

use crate::tags::Tag;
use crate::trees::{Body, Forest, Tlv};
use crate::views::ForestView;
use std::alloc::{AllocError, Global};

/// Copies the objects of a view. Fails only if memory runs out, and never for an empty list. The objects' shortest
/// encoding must fit 65,535 bytes; the viewed one may be longer.
pub fn owned(alloc: Global, objects: ForestView<'_>) -> Result<Forest, AllocError>
    requires { ∥ HasSpelling objects ∥₁ }
    ensures { MatchResult result (λ made. made ≡ objects.entry) (λ _. objects.entry ≢ none) }
{
    let made = owned_objects(alloc, objects)?;
    let Ok(forest) = Forest::checked(made) else {
        unreachable!()
    };
    Ok(forest)
}

/// Copies the objects of a view one after another.
fn owned_objects(alloc: Global, objects: ForestView<'_>) -> Result<Vec<Tlv>, AllocError>
    requires { ∥ AllParts objects ∥₁ }
    ensures { MatchResult result (λ made. objects_of made.items ≡ objects.entry) (λ _. objects.entry ≢ none) }
{
    let mut made = Vec::new(alloc);
    for object in objects {
        let Some(tag) = Tag::checked(object.tag) else {
            unreachable!()
        };
        let body = match object.children() {
            None => Body::Prim(Vec::from_slice(alloc, object.content)?),
            Some(inner) => Body::Cons(owned_objects(alloc, inner)?),
        };
        made.push(Tlv { tag, body })?;
    }
    Ok(made)
}
