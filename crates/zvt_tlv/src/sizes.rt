//! Sizes of encodings.

ghost use Rattle.std.specs.Prelude.{◌≡◌, ℕ, List, length, ◌+◌, ◌<◌, ◌^◌, nat_lt};
ghost use Rattle.zvt_grammar.specs.Reading.{shortest};
ghost use Rattle.zvt_tlv.specs.Grammar.{none, Spells};
ghost use Rattle.zvt_tlv.specs.Sizes.{length_size, whole_size, size_of};
ghost use Rattle.zvt_tlv.specs.Spelled.{HasSpelling};
ghost use Rattle.zvt_tlv.specs.Trees.{before, objects_of};

use crate::trees::{Body, Forest, Tlv};

/// Returns the size of the forest's encoding, at most 65,535 bytes.
pub fn size(forest: &Forest) -> usize
    ensures value { result ≡ size_of forest.now }
    ensures spelling { (bytes : List ℕ) → Spells shortest 1 forest.now bytes → length bytes ≡ result }
    ensures spelled { HasSpelling forest.now }
    ensures small { result < 2 ^ 16 }
{
    objects_size(forest.objects())
}

/// Returns the size of the shortest length for content of this size.
pub fn length_size(content: usize) -> usize
    ensures { result ≡ length_size content }
{
    if content < 128 {
        1
    } else if content < 256 {
        2
    } else {
        3
    }
}

/// Returns the size of the objects' encoding.
#[cycle(sizes)]
pub fn objects_size(objects: &[Tlv]) -> usize
    requires { size_of (objects_of objects.now) < 2 ^ 16 }
    ensures { result ≡ size_of (objects_of objects.now) }
{
    let mut total = 0;
    for object in objects {
        total += object_size(object);
    }
    total
}

#[cycle(sizes)]
fn object_size(object: &Tlv) -> usize
    requires { size_of (before object.now none) < 2 ^ 16 }
    ensures { result ≡ size_of (before object.now none) }
{
    let content = match &object.body {
        Body::Prim(bytes) => bytes.len(),
        Body::Cons(objects) => objects_size(objects),
    };
    object.tag.size() + length_size(content) + content
}
